// Replaying requests: each is served and answered by a line of text.
#![tactic(auto)]

ghost use Rattle.std.specs.Prelude.{◌≡◌, suc, ◌+◌, ◌≤◌, length};
ghost use Rattle.decimal.specs.Decimal.{width};
ghost use Rattle.writing.specs.Overwrite.{overwrite};
ghost use Rattle.rules.specs.Call.{State, state_of};
ghost use Rattle.replay.specs.Line.{field, line_of, line_room};
ghost use Rattle.replay.specs.Batch.{Batch, accepts, batch_of, single};

use answer::Reply;

// Room for any line.
pub const LINE_ROOM: usize = 3 * (decimal::WIDTH + 1);

// Writes a number and a byte after it, and answers the place after both.
fn put_field(out: &mut [u8], at: usize, n: u64, mark: u8) -> usize
    requires { at + suc width ≤ length out.old }
    ensures place { (result ≡ at + length (field n mark)) × (result ≤ at + suc width) }
    ensures out_after { out.new ≡ overwrite out.old at (field n mark) }
{
    let end = decimal::put(out, at, n);
    out[end] = mark;
    end + 1
}

// Writes a line at the front.
fn put_line(out: &mut [u8], number: u64, reply: Reply) -> usize
    requires { line_room ≤ length out.old }
    ensures { let line = line_of number reply in
        (result ≡ length line) × (result ≤ line_room) × (out.new ≡ overwrite out.old 0 line) }
{
    let second = put_field(out, 0, number, b' ');
    let third = put_field(out, second, reply.number as u64, b' ');
    put_field(out, third, reply.value as u64, b'\n')
}

// Serves a request with a source and an empty page and writes its line at the front of the output. Where the output has
// no room for a line, nothing is served or written, and the answer is 0, which no line has: its clause says so.
pub fn step(
    heap: &mut [u8],
    metadata: &mut [u8],
    request: &[u8],
    source: &[u8],
    number: u64,
    out: &mut [u8],
) -> usize
    ensures replayed { let s : State = state_of heap.old metadata.old in
        let b : Batch = single source.now (length out.old) s number request.now in
        (result ≡ length b.text) × (out.new ≡ overwrite out.old 0 b.text)
        × (state_of heap.new metadata.new ≡ b.state) }
    ensures in_bounds { (result ≤ length out.old) × (result ≤ line_room) }
{
    if out.len() < LINE_ROOM {
        return 0;
    }
    let reply = Reply::from(heap::serve(heap, metadata, request, source, b""));
    put_line(out, number, reply)
}

// Whether an output of `room` bytes is long enough for the lines of an input, and 64 bits for their numbers.
fn accepts(input: &[u8], number: u64, room: usize) -> bool
    ensures { result ≡ accepts room number input.now }
{
    let count = input.len().div_ceil(request::SIZE);
    count <= room / LINE_ROOM && count as u64 <= u64::MAX - number
}

// How many bytes of lines are written, and the number of the line after them.
#[derive(Clone, Copy)]
pub struct Done {
    pub written: usize,
    pub next: u64,
}

// Serves every request of the input with one source and an empty page, and writes their lines one after another at the
// front of the output. Where the output may be too short for the lines, or 64 bits for the numbers, nothing is served
// or written.
pub fn batch(
    heap: &mut [u8],
    metadata: &mut [u8],
    input: &[u8],
    source: &[u8],
    number: u64,
    out: &mut [u8],
) -> Done
    ensures replayed { let s : State = state_of heap.old metadata.old in
        let b : Batch = batch_of source.now (length out.old) s number input.now in
        (result.written ≡ length b.text) × (result.next ≡ b.next)
        × (out.new ≡ overwrite out.old 0 b.text)
        × (state_of heap.new metadata.new ≡ b.state) }
    ensures in_bounds { result.written ≤ length out.new }
{
    let mut done = Done {
        written: 0,
        next: number,
    };
    if accepts(input, number, out.len()) {
        for request in input.chunks(request::SIZE) {
            let free = &mut out[done.written..];
            done.written += step(heap, metadata, request, source, done.next, free);
            done.next += 1;
        }
    }
    done
}
