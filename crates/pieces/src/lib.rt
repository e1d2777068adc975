// Requests served as their bytes come: those that are whole at once, and the rest when the next bytes are there or the
// input has ended.
#![tactic(auto)]

ghost use Rattle.std.specs.Prelude.{◌≡◌, [], ◌+◌, ◌<◌, ◌≤◌, length};
ghost use Rattle.writing.specs.Overwrite.{overwrite};
ghost use Rattle.request.specs.Parse.{request_size};
ghost use Rattle.rules.specs.Call.{State, state_of};
ghost use Rattle.replay.specs.Batch.{Batch, batch_of};
ghost use Rattle.pieces.specs.Pieces.{ready_length, ready, rest};

// How many bytes of lines are written, the number of the line after them, and how many bytes are kept. It has the
// fields of `replay::Done` and not a `Done`, since the contracts of two crates name them.
#[derive(Clone, Copy)]
pub struct Served {
    pub written: usize,
    pub next: u64,
    pub kept: usize,
}

// How many of the bytes gathered are served.
fn ready_len(len: usize, ended: bool) -> usize
    ensures { (result ≡ ready_length ended len) × (result ≤ len) × (len < result + request_size) }
{
    if ended {
        len
    } else {
        len / request::SIZE * request::SIZE
    }
}

// Serves as `replay::batch` does with an empty source the whole requests of the bytes gathered, or all of them where
// the input has ended, and moves the rest to the front.
pub fn serve(
    heap: &mut [u8],
    metadata: &mut [u8],
    input: &mut [u8],
    ended: bool,
    number: u64,
    out: &mut [u8],
) -> Served
    ensures replayed { let s : State = state_of heap.old metadata.old in
        let b : Batch = batch_of [] (length out.old) s number (ready ended input.old) in
        (result.written ≡ length b.text) × (result.next ≡ b.next)
        × (out.new ≡ overwrite out.old 0 b.text)
        × (state_of heap.new metadata.new ≡ b.state) }
    ensures kept { result.kept ≡ length (rest ended input.old) }
    ensures input_after { input.new ≡ overwrite input.old 0 (rest ended input.old) }
    ensures in_bounds { (result.written ≤ length out.new) × (result.kept < request_size) }
{
    let end = ready_len(input.len(), ended);
    let done = replay::batch(heap, metadata, &input[0..end], b"", number, out);
    let kept = writing::shift(input, end, request::SIZE);
    Served {
        written: done.written,
        next: done.next,
        kept,
    }
}
