// All lines of an input, one after another, to requests and to messages about bad lines.
#![tactic(auto)]

ghost use Rattle.std.specs.Prelude.{◌≡◌, true, cond, [], ◌∷◌, ◌+◌, ◌≤◌, length, MatchOption, IfSome};
ghost use Rattle.writing.specs.Overwrite.{overwrite};
ghost use Rattle.request.specs.Parse.{request_size};
ghost use Rattle.line.specs.Line.{request_of};
ghost use Rattle.messages.specs.Put.{Put};
ghost use Rattle.assembly.specs.Batch.{lines, unended, requests_in, messages_in, turn_of, fits};
ghost use Rattle.assembly.specs.Pieces.{longest_start};
ghost use Rattle.assembly.specs.Turn.{gathered, text_end, assemble};

use line::Read;

// Room for any message.
pub const MESSAGE: usize = messages::ROOM;

// One byte more than a line may have, and a carriage return.
const START: usize = line::LONGEST + 2;

const NEWLINE: u8 = b'\n';

// How many bytes are kept of a line whose end is not read yet, the number of that line, and how many bytes of requests
// and of messages are written.
#[derive(Clone, Copy)]
pub struct Turn {
    pub kept: usize,
    pub next: u64,
    pub requests: usize,
    pub messages: usize,
}

// How many bytes of a text are read: all, or none where there may be no room for what they come to.
fn admitted_len(len: usize, number: u64, out: usize, errors: usize) -> usize
    ensures { (result ≡ cond (fits len number out errors) len 0) × (result ≤ len) }
{
    let room = len <= out / request::SIZE && len <= errors / MESSAGE;
    if room && len as u64 <= u64::MAX - number {
        len
    } else {
        0
    }
}

// Writes the request that a line asks for, if any, and answers the place after it.
#[tactic(auto, unfolding(line::specs::Line::request_of))]
fn put_request(read: Read, out: &mut [u8], at: usize) -> usize
    requires { at + request_size ≤ length out.old }
    ensures within { result ≤ at + request_size }
    ensures put { Put out.old at (request_of read) result out.new }
{
    let Ok(Some(asked)) = read else {
        return at;
    };
    let bytes = request::encode(asked.operation, asked.argument, asked.count);
    let end = at + request::SIZE;
    out[at..end].copy_from_slice(&bytes);
    end
}

// The first line of a text without its end, and what comes after it; nothing where it has no end.
fn first_line(text: &[u8]) -> Option<(&[u8], &[u8])>
    ensures bytes { MatchOption result
        ((lines text.now ≡ []) × (unended text.now ≡ text.now))
        (λ p. (lines text.now ≡ p.0.now ∷ lines p.1.now) × (unended text.now ≡ unended p.1.now)
        × (length text.now ≡ length p.0.now + (1 + length p.1.now))) }
    ensures place { IfSome result (λ p. (p.0.ref_ptr ≡ text.entry.ref_ptr)
        × (p.1.ref_ptr ≡ (text.entry.ref_ptr.0, (1 + length p.0.now) + text.entry.ref_ptr.1))) }
{
    let end = text.iter().position(|byte| *byte == NEWLINE)?;
    Some((&text[0..end], &text[end + 1..]))
}

// Reads every line of the input that has its end, writes the requests that they ask for at the front of the output, and
// at the front of the errors what bad lines should have been. No line takes less than a byte, so there is room for all.
// What is left is kept.
fn assemble_lines(input: &[u8], number: u64, out: &mut [u8], errors: &mut [u8]) -> Turn
    requires { fits (length input.now) number (length out.old) (length errors.old) ≡ true }
    ensures turn { (result ≡ turn_of number input.now) × (result.kept ≤ length input.now) }
    ensures in_bounds { (result.requests ≤ length out.new) × (result.messages ≤ length errors.new) }
    ensures out_after { out.new ≡ overwrite out.old 0 (requests_in input.now) }
    ensures errors_after { errors.new ≡ overwrite errors.old 0 (messages_in number input.now) }
{
    let mut rest = input;
    let mut next = number;
    let mut requests: usize = 0;
    let mut messages: usize = 0;
    while let Some((text, more)) = first_line(rest) {
        let read = line::read(text);
        requests = put_request(read, out, requests);
        messages = messages::put(text, read, next, errors, messages);
        next += 1;
        rest = more;
    }
    Turn {
        kept: rest.len(),
        next,
        requests,
        messages,
    }
}

// Where the text ends of which `kept` bytes were there before and `got` were read. Where none were, it gets the end
// that its last line may lack.
#[tactic(auto, unfolding(crate::specs::Turn::gathered, crate::specs::Turn::text_end))]
fn gather(input: &mut [u8], kept: usize, got: usize) -> usize
    ensures end { (result ≡ text_end (length input.old) kept got) × (result ≤ length input.new) }
    ensures input_after { input.new ≡ gathered input.old kept got }
{
    let size = input.len();
    if size <= kept {
        return size;
    }
    if got == 0 {
        input[kept] = NEWLINE;
        return kept + 1;
    }
    kept + got.min(size - kept)
}

// Reads the lines of an input at the front of which `kept` bytes were kept by the turn before and behind them `got`
// bytes read, 0 at its end, and writes their requests and messages. Where these may not fit, or the lines' numbers 64
// bits, nothing is read, written or kept. `kept` and `got` are two numbers, no struct: the clause `turn` gives them to
// the definition `assemble` one by one, and takes any two, also such as no turn or read gives.
pub fn assemble(
    input: &mut [u8],
    kept: usize,
    got: usize,
    number: u64,
    out: &mut [u8],
    errors: &mut [u8],
) -> Turn
    ensures turn { (record {
      turn = result;
      input = input.new;
      out = out.new;
      errors = errors.new;
    })
        ≡ assemble input.old kept got number out.old errors.old }
    ensures kept { result.kept ≤ longest_start }
    ensures in_bounds { (result.requests ≤ length out.new) × (result.messages ≤ length errors.new) }
{
    let end = gather(input, kept, got);
    let len = admitted_len(end, number, out.len(), errors.len());
    let turn = assemble_lines(&input[0..len], number, out, errors);
    let left = writing::shift(input, len - turn.kept, START.min(turn.kept));
    Turn { kept: left, ..turn }
}
