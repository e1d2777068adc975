// What the programs share: what their arguments ask for, input and output with a message where they fail, and the
// status that they end with.
//
// What a reader has left and a writer holds is promised where it is known, as of memory. Of the system's streams it
// is not.
#![tactic(auto)]

pub mod arguments;

ghost use Rattle.std.specs.Prelude.{◌≡◌, cond, eqb, length, take, IfOk, IsOk, MatchResult, OnOk, ◌≤◌, ◌<◌, ℕ, IsErr, Result};
ghost use Rattle.std.specs.Io.KnownBytes.{Appends, Consumes, IsAtEnd, Keeps};
ghost use Rattle.std.specs.Process.{exit_status};
ghost use Rattle.program.specs.Asked.{argument_room, held_of};
ghost use Rattle.program.specs.Got.{got_of};
ghost use Rattle.program.specs.Status.{status_number, status_of};
ghost use Rattle.program.specs.declared.Status.{Status};
ghost use Rattle.program.specs.declared.Status.TheVariants.{Done};
ghost use Rattle.program.specs.declared.Failed.{Failed};
ghost use Rattle.program.specs.declared.arguments.Asked.{Asked};
ghost use Rattle.program.specs.declared.arguments.Choice.TheVariants.{Run, Help, Version, Unknown};

use arguments::{Asked, Choice};
use std::env::{Env, FillError};
use std::fmt::InlineText;
use std::io;
use std::io::{Read, Write};
use std::process::ExitCode;

// An input or an output failed, and standard error says so.
#[derive(Clone, Copy, PartialEq, Eq, Debug)]
pub struct Failed;

// What a program came to.
#[derive(Clone, Copy, PartialEq, Eq, Debug)]
pub enum Status {
    Done = 0,
    BadLines = 1,
    Failed = 2,
}

// The exit status.
impl From<Status> for u8 {
    ghost from_gives = { λ status n. n ≡ status_number status };

    fn from(status: Status) -> u8 {
        status as u8
    }
}

// What a read brought.
#[derive(Clone, Copy, PartialEq, Eq, Debug)]
pub struct Got {
    pub count: usize,
}

impl Got {
    // A read that brought nothing found the end of the input.
    pub fn ended(self) -> bool
        ensures { result ≡ eqb self.count 0 }
    {
        self.count == 0
    }
}

// Says on standard error that `place` failed, and why: in the system's words, without the error's number, which std
// adds to them.
fn fail<E: Write>(errors: &mut E, place: &[u8], error: io::Error) -> Failed {
    let text = InlineText::<256>::of(error);
    let words = text.as_str();
    let why = match words.split_once(" (os error ") {
        Some((before, _)) => before,
        None => words,
    };
    let _ = errors.write_all(place);
    let _ = errors.write_all(b": ");
    let _ = errors.write_all(why.as_bytes());
    let _ = errors.write_all(b"\n");
    Failed
}

// What the answer to a read comes to: how many bytes came, or that `place` failed, which is said.
fn told<E: Write>(errors: &mut E, place: &[u8], answer: io::Result<usize>) -> Result<Got, Failed>
    ensures { result ≡ got_of answer }
{
    let count = answer.map_err(|e| fail(errors, place, e))?;
    Ok(Got { count })
}

// Reads once, or says that `place` failed. How many bytes came, and which, the reader decides. A place is any bytes and
// no `&str`, as it was promised.
pub fn read<R: Read, E: Write>(
    reader: &mut R,
    errors: &mut E,
    input: &mut [u8],
    place: &[u8],
) -> Result<Got, Failed>
    ensures in_bounds { IfOk result (λ got. got.count ≤ length input.new) }
    ensures taken { MatchResult result
        (λ got. Consumes (R.remaining reader.old) (R.remaining reader.new) (take got.count input.new))
        (λ _. Keeps (R.remaining reader.old) (R.remaining reader.new)) }
    ensures at_end { IfOk result (λ got. got.count ≡ 0 → 0 < length input.new
        → IsAtEnd (R.remaining reader.new)) }
{
    told(errors, place, reader.read(input))
}

// Writes all of a text, or says that `place` failed. Which it is, the writer decides, where there is something to
// write.
pub fn print<W: Write, E: Write>(
    output: &mut W,
    errors: &mut E,
    text: &[u8],
    place: &[u8],
) -> Result<(), Failed>
    ensures empty { length text.now ≡ 0 → IsOk result }
    ensures written { OnOk result (Appends (W.contents output.old) (W.contents output.new) text.now) }
{
    if text.is_empty() {
        return Ok(());
    }
    output.write_all(text).map_err(|e| fail(errors, place, e))
}

// More bytes of an argument than are shown.
const ARGUMENT: usize = quoting::SHOWN + 1;

// How many bytes of its buffer an argument has, by the answer to a look at it: all where it is longer.
fn held(answer: Result<usize, FillError>) -> usize
    requires { IfOk answer (λ got. got ≤ argument_room) }
    ensures { (result ≡ held_of answer) × (result ≤ argument_room) }
{
    match answer {
        Ok(got) => got,
        Err(FillError::TooLong) => ARGUMENT,
        Err(FillError::NotPresent) => 0,
    }
}

// Says that a word of the arguments is unknown: its start, between quotes.
pub fn refuse<R: Env, E: Write>(rt: &R, errors: &mut E, name: &[u8], word: usize) -> Failed {
    let mut argument = [0u8; ARGUMENT];
    let len = held(rt.arg(word, &mut argument));
    let shown = quoting::quoted(&argument[0..len]);
    let _ = errors.write_all(name);
    let _ = errors.write_all(b": unknown argument ");
    let _ = errors.write_all(shown.bytes());
    let _ = errors.write_all(b"; see --help\n");
    Failed
}

// What a program ends with: its status where the launcher wants one, and else 0. It takes any number, since its clause
// speaks of all: a `Status` would be fewer.
pub fn finish(launched: bool, status: u8) -> ExitCode
    ensures { exit_status result ≡ cond launched status 0 }
{
    ExitCode::from(if launched { status } else { 0 })
}

// What a program says of itself: its name, its help and version texts, and what it calls its output.
#[derive(Clone, Copy)]
pub struct About<'a> {
    pub name: &'a str,
    pub help: &'a str,
    pub version: &'a str,
    pub output: &'a str,
}

// What a program reads, and where it writes and says what fails.
#[derive(Drop)]
pub struct Streams<R, W, E> {
    pub reader: R,
    pub output: W,
    pub errors: E,
}

// The work of a program on what it is lent: what it may come to, and what it leaves.
pub trait Work<S> {
    ghost comes_to: { Self → S → Result Status Failed → S → Type 0 };

    fn carry_on(self, streams: &mut S) -> Result<Status, Failed>
        ensures { comes_to self streams.old result streams.new };
}

// Does what was chosen: the program's work, or one of its texts.
fn perform<V: Env, R: Read, W: Write, E: Write, F>(
    rt: &V,
    choice: Choice,
    about: &About<'_>,
    streams: &mut Streams<R, W, E>,
    work: F,
) -> Result<Status, Failed>
where
    F: Work<Streams<R, W, E>> + Drop,
    ensures worked { choice ≡ Run → F.comes_to work streams.old result streams.new }
    ensures help { choice ≡ Help → IfOk result (λ status. (status ≡ Done)
        × Appends (W.contents streams.old.output) (W.contents streams.new.output) about.now.help.now) }
    ensures version { choice ≡ Version → IfOk result (λ status. (status ≡ Done)
        × Appends (W.contents streams.old.output) (W.contents streams.new.output) about.now.version.now) }
    ensures unknown { (word : ℕ) → choice ≡ Unknown word → IsErr result }
{
    let text = match choice {
        Choice::Run => return work.carry_on(streams),
        Choice::Help => about.help,
        Choice::Version => about.version,
        Choice::Unknown(word) => {
            let name = about.name.as_bytes();
            return Err(refuse(rt, &mut streams.errors, name, word));
        }
    };
    print(
        &mut streams.output,
        &mut streams.errors,
        text.as_bytes(),
        about.output.as_bytes(),
    )?;
    Ok(Status::Done)
}

// Does what was asked, and ends with the status of that.
fn carry_out<V: Env, R: Read, W: Write, E: Write, F>(
    rt: &V,
    asked: Asked,
    about: &About<'_>,
    streams: &mut Streams<R, W, E>,
    work: F,
) -> ExitCode
where
    F: Work<Streams<R, W, E>> + Drop,
    ensures { (came : Result Status Failed)
        × (exit_status result ≡ cond asked.launched (status_number (status_of came)) 0)
        × (asked.choice ≡ Run → F.comes_to work streams.old came streams.new)
        × (asked.choice ≡ Help → IfOk came (λ status. (status ≡ Done)
        × Appends (W.contents streams.old.output) (W.contents streams.new.output) about.now.help.now))
        × (asked.choice ≡ Version → IfOk came (λ status. (status ≡ Done)
        × Appends (W.contents streams.old.output) (W.contents streams.new.output) about.now.version.now))
        × ((word : ℕ) → asked.choice ≡ Unknown word → IsErr came) }
{
    let came = perform(rt, asked.choice, about, streams, work);
    let status = came.unwrap_or(Status::Failed);
    finish(asked.launched, u8::from(status))
}

// Runs a program: does what its arguments ask for, and ends with the status of that. What they ask for, and whether the
// launcher wants the status, the system decides; of what is asked `carry_out` has the promise.
pub fn run<V: Env, R: Read, W: Write, E: Write, F>(
    rt: &V,
    about: &About<'_>,
    streams: &mut Streams<R, W, E>,
    work: F,
) -> ExitCode
where
    F: Work<Streams<R, W, E>> + Drop,
    ensures { (asked : Asked) × (came : Result Status Failed)
        × (exit_status result ≡ cond asked.launched (status_number (status_of came)) 0)
        × (asked.choice ≡ Run → F.comes_to work streams.old came streams.new)
        × (asked.choice ≡ Help → IfOk came (λ status. (status ≡ Done)
        × Appends (W.contents streams.old.output) (W.contents streams.new.output) about.now.help.now))
        × (asked.choice ≡ Version → IfOk came (λ status. (status ≡ Done)
        × Appends (W.contents streams.old.output) (W.contents streams.new.output) about.now.version.now))
        × ((word : ℕ) → asked.choice ≡ Unknown word → IsErr came) }
{
    carry_out(rt, Asked::of(rt), about, streams, work)
}
