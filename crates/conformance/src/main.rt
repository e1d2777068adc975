// Runs cases from standard input: for each it opens a heap, serves requests on it, has replicas vote, and prints a line
// for the opening, one for each request, one with a digest of the heap's bytes, and one for the vote and one for the
// whole vote, each with a digest of its output.
//
// A case is a header of eight little-endian words, the heap's length, z, w, the pattern, the length of a source, a
// number of requests, a number of replicas and the length of their blocks or whole outputs, and then the source, which
// all requests are lent and the replicas vote on, and the requests, of sixteen bytes each. A heap length above 98,304
// counts as 98,304, a source's above 65,536 as 65,536, and a number of requests above 1,024 as 1,024. What is not
// written stays as the case before left it: bytes in no slot, where an opening is refused the whole heap and the
// metadata, and bytes of an output that its vote does not write. A header that is cut short ends the run.
#![tactic(auto)]

ghost use Rattle.std.specs.Prelude.{◌≡◌, ◌+◌, ◌*◌, ◌<◌, ◌≤◌, min, length, drop};
ghost use Rattle.answer.specs.declared.Reply.{Reply};
ghost use Rattle.words.specs.Word.{word_at};
ghost use Rattle.writing.specs.Overwrite.{overwrite};
ghost use Rattle.request.specs.Parse.{request_size};
ghost use Rattle.rules.specs.Open.{setup};
ghost use Rattle.rules.specs.Call.{State, state_of, opening};
ghost use Rattle.vote.specs.Decide.{decide, output_after};
ghost use Rattle.whole.specs.Whole.{whole};
ghost use Rattle.replay.specs.Batch.{Batch, batch_of};
ghost use Rattle.replay.specs.Opened.{opened_state};
ghost use Rattle.conformance.specs.Case.{heap_room, metadata_room, source_room, requests_room, case_of};
ghost use Rattle.conformance.specs.Digest.{digest};

use answer::Reply;
use geometry::Plan;
use program::Failed;
use std::io::{Read, Write};
use vote::{LONGEST_BLOCK, Tally};

// Room for the bytes of a heap, of its metadata and of a source, and for requests.
const HEAP: usize = 98304;

const METADATA: usize = 4096;

const SOURCE: usize = 65536;

const REQUESTS: usize = 1024;

// The bytes of the output of whole votes.
const WHOLE: usize = 5 * LONGEST_BLOCK;

// The bytes of a header.
const HEADER: usize = 32;

// How many bytes of lines are held at a time.
const OUTPUT: usize = 65536;

// The lengths of a case's heap, metadata, source and requests, its seeds, its pattern, the canary, and its votes.
#[derive(Clone, Copy)]
struct Case {
    heap: usize,
    metadata: usize,
    z: u32,
    w: u32,
    canary: u32,
    source: usize,
    requests: usize,
    replicas: usize,
    block: usize,
}

// What a case came to: what the opening answered, and how many bytes its requests' lines have.
#[derive(Clone, Copy)]
struct Ran {
    opened: Reply,
    written: usize,
}

// A word of a header, or the most that there is room for.
fn word_up_to(header: &[u8], at: usize, most: usize) -> usize
    ensures { result ≡ min (word_at header.now at) most }
{
    (words::get(header, at) as usize).min(most)
}

// Reads a header. No heap that there is room for has more than 318 bytes of metadata, so its length is never cut.
fn case_of(header: &[u8]) -> Case
    ensures read { result ≡ case_of header.now }
    ensures within { (result.heap ≤ heap_room) × (result.metadata ≤ metadata_room)
        × (result.source ≤ source_room) × (result.requests ≤ request_size * requests_room) }
{
    let heap = word_up_to(header, 0, HEAP);
    let requests = word_up_to(header, 20, REQUESTS);
    Case {
        heap,
        metadata: Plan::of(heap).metadata.min(METADATA),
        z: words::get(header, 4),
        w: words::get(header, 8),
        canary: words::get(header, 12),
        source: word_up_to(header, 16, SOURCE),
        requests: request::SIZE * requests,
        replicas: words::get(header, 24) as usize,
        block: words::get(header, 28) as usize,
    }
}

// A number that every byte moves: two heaps that differ in one byte have different ones.
fn digest(bytes: &[u8]) -> u32
    ensures { result ≡ digest 0 bytes.now }
{
    bytes.iter().fold(0, |sum: u32, byte| {
        sum.wrapping_mul(31).wrapping_add(u32::from(*byte))
    })
}

// Opens the heap, and serves the requests whatever the opening answered. A struct of these borrows of the arrays in
// `main` would be taken apart again in each function.
fn run(
    heap: &mut [u8],
    metadata: &mut [u8],
    case: Case,
    source: &[u8],
    requests: &[u8],
    out: &mut [u8],
) -> Ran
    ensures opened { let given = setup case.z case.w case.canary in
        let opened : Reply = (opening (length heap.old) metadata.old given).answer in
        result.opened ≡ opened }
    ensures replayed { let given = setup case.z case.w case.canary in
        let s : State = opened_state heap.old metadata.old given in
        let b : Batch = batch_of source.now (length out.old) s 1 requests.now in
        (result.written ≡ length b.text)
        × (out.new ≡ overwrite out.old 0 b.text)
        × (state_of heap.new metadata.new ≡ b.state) }
    ensures in_bounds { result.written ≤ length out.new }
{
    let answer = heap::open(heap, metadata, case.z, case.w, case.canary);
    let done = replay::batch(heap, metadata, requests, source, 1, out);
    Ran {
        opened: Reply::from(answer),
        written: done.written,
    }
}

// Prints a line: a word, and numbers. Nobody waits for it, so it does not look whether a write failed, and promises
// nothing: after a failed write even a writer of known bytes may hold any part of the line.
fn print_line<W: Write>(lines: &mut W, word: &str, numbers: &[u32]) {
    let _ = lines.write_all(word.as_bytes());
    for number in numbers {
        let _ = write!(lines, " {number}");
    }
    let _ = lines.write_all(b"\n");
}

// Runs a case, and prints a line for its opening, those of its requests and one for its heap. Where those of its
// requests cannot be written, it says so and prints no more.
fn print_run<W: Write, E: Write>(
    lines: &mut W,
    errors: &mut E,
    heap: &mut [u8],
    metadata: &mut [u8],
    case: Case,
    source: &[u8],
    requests: &[u8],
    out: &mut [u8],
) -> Result<(), Failed>
    ensures { let given = setup case.z case.w case.canary in
        let s : State = opened_state heap.old metadata.old given in
        let b : Batch = batch_of source.now (length out.old) s 1 requests.now in
        (state_of heap.new metadata.new ≡ b.state)
        × (out.new ≡ overwrite out.old 0 b.text) }
{
    let ran = run(heap, metadata, case, source, requests, out);
    print_line(lines, "open", &[ran.opened.number, ran.opened.value]);
    program::print(
        lines,
        errors,
        &out[0..ran.written],
        b"conformance: standard output",
    )?;
    print_line(lines, "heap", &[digest(heap)]);
    Ok(())
}

// Prints the line of a vote: its answer in numbers, and a digest of its output.
fn print_tally<W: Write>(lines: &mut W, word: &str, tally: Tally, output: &[u8]) {
    print_line(
        lines,
        word,
        &[
            tally.number,
            tally.mask,
            tally.value,
            tally.replica,
            digest(output),
        ],
    );
}

// Has replicas vote, and prints the line of their answer.
fn print_vote<W: Write>(
    lines: &mut W,
    blocks: &[u8],
    replicas: usize,
    block_len: usize,
    output: &mut [u8],
)
    ensures { let d = decide blocks.now replicas block_len (length output.old) in
        output.new ≡ output_after d output.old }
{
    let tally = Tally::from(vote::vote(blocks, replicas, block_len, output));
    print_tally(lines, "vote", tally, output);
}

// Has replicas vote on whole outputs, and prints the line of their answer.
fn print_whole<W: Write>(
    lines: &mut W,
    outputs: &[u8],
    replicas: usize,
    len: usize,
    output: &mut [u8],
)
    ensures { let voted = whole outputs.now replicas len output.old in
        output.new ≡ voted.output }
{
    let tally = whole::tally(whole::vote(outputs, replicas, len, output));
    print_tally(lines, "whole", tally, output);
}

// Reads until the slice is full, the input ends or a read fails, and answers how many bytes came. A `while`, since
// std's read_exact doesn't answer how many there were, and read_to_end wants a Vec, which no program here has.
fn read_full<R: Read>(reader: &mut R, into: &mut [u8]) -> usize
    ensures { result ≤ length into.new }
{
    let mut done: usize = 0;
    while done < into.len() {
        match reader.read(&mut into[done..]) {
            Ok(count) if count > 0 => done += count,
            _ => break,
        }
    }
    done
}

// Reads bytes to the front of a slice, as many as there are up to a number, and answers how many.
fn read_front<R: Read>(reader: &mut R, into: &mut [u8], most: usize) -> usize
    requires { most ≤ length into.old }
    ensures { (result ≤ most) × (drop most into.new ≡ drop most into.old) }
{
    read_full(reader, &mut into[0..most])
}

fn main(rt: HostRuntime) {
    let mut reader = rt.stdin();
    let mut lines = rt.stdout();
    let mut errors = rt.stderr();
    let mut heap = [0u8; HEAP];
    let mut metadata = [0u8; METADATA];
    let mut header = [0u8; HEADER];
    let mut source = [0u8; SOURCE];
    let mut requests = [0u8; request::SIZE * REQUESTS];
    let mut agreed = [0u8; LONGEST_BLOCK];
    let mut whole = [0u8; WHOLE];
    let mut out = [0u8; OUTPUT];
    // A proved loop ends: this one ends with the input, or after more cases than any input has.
    for _ in 0..u32::MAX {
        if read_full(&mut reader, &mut header) < HEADER {
            return;
        }
        let case = case_of(&header);
        let lent_len = read_front(&mut reader, &mut source, case.source);
        let lent = &source[0..lent_len];
        let got = read_front(&mut reader, &mut requests, case.requests);
        let shown = print_run(
            &mut lines,
            &mut errors,
            &mut heap[0..case.heap],
            &mut metadata[0..case.metadata],
            case,
            lent,
            &requests[0..got],
            &mut out,
        );
        if shown.is_err() {
            return;
        }
        print_vote(&mut lines, lent, case.replicas, case.block, &mut agreed);
        print_whole(&mut lines, lent, case.replicas, case.block, &mut whole);
    }
}
