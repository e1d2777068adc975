// Turns lines of text from standard input into requests on standard output, and names each bad line on standard error.
#![tactic(auto)]

ghost use Rattle.std.specs.Prelude.{◌≡◌, ◌⊎◌, IfOk};
ghost use Rattle.program.specs.declared.Status.TheVariants.{Done, BadLines};
ghost use Rattle.assemble.specs.Status.{status_after};

use program::{About, Failed, Status, Streams, Work};
use std::io::{Read, Write};
use std::process::ExitCode;

const ABOUT: About<'static> = About {
    name: "assemble",
    help: "usage: assemble < LINES > REQUESTS, assemble --help or assemble --version\n\
    \n\
    Turns lines of text into requests of 16 bytes, as benchrun reads them.\n\
    \n\
    Input: lines of at most 255 bytes that end in LF or CR LF. A line has words with spaces or tabs\n\
    around them: place SIZE, free OFFSET, measure OFFSET, copy OFFSET, text OFFSET, counted OFFSET\n\
    COUNT or read OFFSET COUNT, in decimal from 0 to 4294967295. What comes after # is a comment; a\n\
    line may be empty.\n\
    Output: a request for each line that asks for one. Standard error: a message for each bad line.\n\
    Exit status: 0 where all lines are good; 1 where a line is bad, and the good ones are written; 2\n\
    where an argument is unknown, the input cannot be read or an output cannot be written.\n",
    version: "assemble 0.1.0\n",
    output: "assemble: standard output",
};

// How many bytes of the input are held at a time. Each has room for a message, and the prover stops at arrays of more
// than 256 KiB.
const INPUT: usize = 2048;

// Writes requests and messages, and answers the status after them, or that an output cannot be written.
#[tactic(auto, unfolding(crate::specs::Status::status_after))]
fn answer<W: Write, E: Write>(
    output: &mut W,
    errors: &mut E,
    status: Status,
    requests: &[u8],
    messages: &[u8],
) -> Result<Status, Failed>
    ensures { IfOk result (λ after. after ≡ status_after status messages.now) }
{
    program::print(output, errors, requests, ABOUT.output.as_bytes())?;
    if messages.is_empty() {
        return Ok(status);
    }
    errors.write_all(messages).map_err(|_| Failed)?;
    Ok(Status::BadLines)
}

// Reads the input to its end, and answers the status: which it is, the system decides.
#[tactic(auto, unfolding(crate::specs::Status::status_after))]
fn assemble_input<R: Read, W: Write, E: Write>(
    streams: &mut Streams<R, W, E>,
) -> Result<Status, Failed>
    ensures { IfOk result (λ status. (status ≡ Done) ⊎ (status ≡ BadLines)) }
{
    let mut input = [0u8; INPUT];
    let mut out = [0u8; INPUT * request::SIZE];
    let mut said = [0u8; INPUT * assembly::MESSAGE];
    let mut kept: usize = 0;
    let mut number: u64 = 1;
    let mut status = Status::Done;
    // A proved loop ends: this one ends with the input, or after more reads than any input takes.
    for _ in 0..u64::MAX {
        let got = program::read(
            &mut streams.reader,
            &mut streams.errors,
            &mut input[kept..],
            b"assemble: standard input",
        )?;
        let turn = assembly::assemble(&mut input, kept, got.count, number, &mut out, &mut said);
        status = answer(
            &mut streams.output,
            &mut streams.errors,
            status,
            &out[0..turn.requests],
            &said[0..turn.messages],
        )?;
        if got.ended() {
            break;
        }
        kept = turn.kept;
        number = turn.next;
    }
    Ok(status)
}

// What this program does where it is asked for its work.
#[derive(Drop)]
struct Assembling;

impl<R: Read, W: Write, E: Write> Work<Streams<R, W, E>> for Assembling {
    ghost comes_to = { λ work old result new. IfOk result (λ status. (status ≡ Done) ⊎ (status ≡ BadLines)) };

    fn carry_on(self, streams: &mut Streams<R, W, E>) -> Result<Status, Failed> {
        assemble_input(streams)
    }
}

fn main(rt: HostRuntime) -> ExitCode {
    let mut streams = Streams {
        reader: rt.stdin(),
        output: rt.stdout(),
        errors: rt.stderr(),
    };
    program::run(&rt, &ABOUT, &mut streams, Assembling)
}
