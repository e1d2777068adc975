// Replays requests from standard input on a heap with regions of 4,096 bytes, opened with z = 1, w = 1 and four zero
// bytes as the pattern, and prints a line for each.
#![tactic(auto)]

ghost use Rattle.std.specs.Prelude.{◌≡◌, IfOk, Bool, List, ℕ, ◌+◌, ◌<◌, ◌≤◌, eqb, length, take};
ghost use Rattle.writing.specs.Overwrite.{overwrite};
ghost use Rattle.request.specs.Parse.{request_size};
ghost use Rattle.program.specs.declared.Status.TheVariants.{Done};
ghost use Rattle.rules.specs.Call.{state_of};
ghost use Rattle.replay.specs.Batch.{Batch};
ghost use Rattle.replay.specs.Opened.{opened_state};
ghost use Rattle.pieces.specs.Pieces.{ready, rest, replay_all};
ghost use Rattle.benchrun.specs.Replay.{heap_bytes, metadata_bytes, given, first_number, most_requests, Room};

use pieces::Served;
use program::{About, Failed, Got, Status, Streams, Work};
use std::io::{Read, Write};
use std::process::ExitCode;

const ABOUT: About<'static> = About {
    name: "benchrun",
    help: "usage: benchrun < REQUESTS, benchrun --help or benchrun --version\n\
    \n\
    Serves requests on a heap of 49152 bytes that was opened with z = 1, w = 1 and four zero bytes as\n\
    the pattern.\n\
    \n\
    Input: requests of 16 bytes, served as they come. A request is four little-endian words: the\n\
    operation (0 allocate, 1 free, 2 remaining size, 3 copy bytes, 4 copy string, 5 copy padded, 6\n\
    read), its size or offset, the count of operations 5 and 6 and otherwise 0, and 0. Copies have an\n\
    empty source and reads an empty page. A last part under 16 bytes is a malformed request.\n\
    Output: a line for each request: its number from 1, the number of the refusal or 0, and the value.\n\
    Exit status: 0 where the input was served to its end; 2 where an argument is unknown, the input\n\
    cannot be read or the output cannot be written.\n",
    version: "benchrun 0.1.0\n",
    output: "benchrun: standard output",
};

// The bytes of the heap and of its metadata.
const HEAP: usize = 49152;

const METADATA: usize = 190;

// How many bytes of the input are held at a time.
const INPUT: usize = 16384;

// How many bytes of lines are held at a time.
const OUTPUT: usize = 65536;

// More reads than any input takes.
const READS: u64 = 1 << 53;

// Opens the heap.
fn open(heap: &mut [u8], metadata: &mut [u8])
    requires { (length heap.old ≡ heap_bytes) × (length metadata.old ≡ metadata_bytes) }
    ensures { state_of heap.new metadata.new
        ≡ opened_state heap.old metadata.old given }
{
    let _ = heap::open(heap, metadata, 1, 1, 0);
}

// Before the first read.
fn start() -> Served
    ensures { result ≡ record { written = 0; next = first_number; kept = 0 } }
{
    Served {
        written: 0,
        next: 1,
        kept: 0,
    }
}

// Serves what a read brought behind the bytes that were kept, and keeps what is no whole request, unless the input has
// ended.
fn serve(
    heap: &mut [u8],
    metadata: &mut [u8],
    input: &mut [u8],
    kept: usize,
    got: Got,
    number: u64,
    out: &mut [u8],
) -> Served
    requires { Room input.old out.old (kept + got.count) number }
    ensures replayed { let ended : Bool = eqb got.count 0 in
        let bytes : List ℕ = take (kept + got.count) input.old in
        let b : Batch = replay_all (state_of heap.old metadata.old) number (ready ended bytes) in
        (result.written ≡ length b.text) × (result.kept ≡ length (rest ended bytes)) × (result.next ≡ b.next)
        × (out.new ≡ overwrite out.old 0 b.text)
        × (input.new ≡ overwrite input.old 0 (rest ended bytes))
        × (state_of heap.new metadata.new ≡ b.state) }
    ensures in_bounds { (result.written ≤ length out.new) × (result.kept < request_size) }
    ensures numbered { result.next ≤ number + most_requests }
{
    let end = kept + got.count;
    pieces::serve(heap, metadata, &mut input[0..end], got.ended(), number, out)
}

// Reads behind the bytes that were kept, and leaves these as they are.
fn read_behind<R: Read, E: Write>(
    reader: &mut R,
    errors: &mut E,
    input: &mut [u8],
    kept: usize,
) -> Result<Got, Failed>
    requires { kept ≤ length input.old }
    ensures in_bounds { IfOk result (λ got. kept + got.count ≤ length input.new) }
    ensures kept_unchanged { take kept input.new ≡ take kept input.old }
{
    program::read(
        reader,
        errors,
        &mut input[kept..],
        b"benchrun: standard input",
    )
}

// Serves the input to its end, unless a read or a write fails: which it is, the system decides.
#[tactic(auto, using(crate::proofs::Opening::metadata_bytes_lem))]
fn serve_input<R: Read, W: Write, E: Write>(
    streams: &mut Streams<R, W, E>,
) -> Result<Status, Failed>
    ensures { IfOk result (λ status. status ≡ Done) }
{
    let mut heap = [0u8; HEAP];
    let mut metadata = [0u8; METADATA];
    open(&mut heap, &mut metadata);
    let mut input = [0u8; INPUT];
    let mut out = [0u8; OUTPUT];
    let mut served = start();
    // A proved loop ends: this one ends with the input, or after more reads than any input takes.
    for _ in 0..READS {
        let kept = served.kept;
        let got = read_behind(&mut streams.reader, &mut streams.errors, &mut input, kept)?;
        served = serve(
            &mut heap,
            &mut metadata,
            &mut input,
            kept,
            got,
            served.next,
            &mut out,
        );
        program::print(
            &mut streams.output,
            &mut streams.errors,
            &out[0..served.written],
            ABOUT.output.as_bytes(),
        )?;
        if got.ended() {
            break;
        }
    }
    Ok(Status::Done)
}

// What this program does where it is asked for its work.
#[derive(Drop)]
struct Replaying;

impl<R: Read, W: Write, E: Write> Work<Streams<R, W, E>> for Replaying {
    ghost comes_to = { λ work old result new. IfOk result (λ status. status ≡ Done) };

    fn carry_on(self, streams: &mut Streams<R, W, E>) -> Result<Status, Failed> {
        serve_input(streams)
    }
}

fn main(rt: HostRuntime) -> ExitCode {
    let mut streams = Streams {
        reader: rt.stdin(),
        output: rt.stdout(),
        errors: rt.stderr(),
    };
    program::run(&rt, &ABOUT, &mut streams, Replaying)
}
