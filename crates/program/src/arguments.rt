// What a program's arguments ask for: its work, its help text or its version, or nothing that it knows; and whether the
// launcher of programs/launch.c wants its status.
ghost use Rattle.std.specs.Prelude.{◌≡◌, ◌<◌, ◌≤◌, length, ℕ, List};
ghost use Rattle.program.specs.Asked.{alone_of, choice_of, asked_of};

use std::env::{Env, FillError};

// Unknown is the word with this number.
#[derive(Clone, Copy)]
pub enum Choice {
    Run,
    Help,
    Version,
    Unknown(usize),
}

#[derive(Clone, Copy)]
pub struct Asked {
    pub launched: bool,
    pub choice: Choice,
}

// What word `own` asks for, which must be the last one.
#[tactic(auto, unfolding(crate::specs::Asked::alone_of))]
fn alone(count: usize, own: usize, choice: Choice) -> Choice
    requires { own < count }
    ensures { result ≡ alone_of count own choice }
{
    if count - own == 1 {
        choice
    } else {
        Choice::Unknown(own + 1)
    }
}

// `count` words, of which those from `own` on are the user's.
#[tactic(auto, unfolding(crate::specs::Asked::choice_of, alike::specs::Text::bytes))]
fn chosen(count: usize, own: usize, argument: &[u8]) -> Choice
    ensures { result ≡ choice_of count own argument.now }
{
    if count <= own {
        Choice::Run
    } else if alike::same(argument, b"--help") {
        alone(count, own, Choice::Help)
    } else if alike::same(argument, b"--version") {
        alone(count, own, Choice::Version)
    } else {
        Choice::Unknown(own)
    }
}

// `count` words, the program's name first, and the two after it, each empty where there is none.
#[tactic(auto, unfolding(crate::specs::Asked::asked_of, alike::specs::Text::bytes))]
pub fn read(count: usize, first: &[u8], second: &[u8]) -> Asked
    ensures { result ≡ asked_of count first.now second.now }
{
    let launched = alike::same(first, b"--status");
    let choice = if launched {
        chosen(count, 2, second)
    } else {
        chosen(count, 1, first)
    };
    Asked { launched, choice }
}

// How many words there are, the program's name among them.
pub fn count<R: Env>(rt: &R) -> usize {
    (0..usize::MAX)
        .find(|word| matches!(rt.arg(*word, &mut []), Err(FillError::NotPresent)))
        .unwrap_or(usize::MAX)
}

// Reads a word, and answers how many bytes it has: none where there is no such word, or it is longer than the buffer,
// since neither is a word that is known.
pub fn word<R: Env>(rt: &R, word: usize, into: &mut [u8]) -> usize
    ensures { result ≤ length into.new }
{
    rt.arg(word, into).unwrap_or(0)
}

// More bytes than any word that is known has.
const WORD: usize = 16;

impl Asked {
    // What the program's own words ask for. Which these are, the system decides.
    pub(crate) fn of<R: Env>(rt: &R) -> Asked
        ensures { (words : ℕ) × (one : List ℕ) × (two : List ℕ) × (result ≡ asked_of words one two) }
    {
        let mut first = [0u8; WORD];
        let mut second = [0u8; WORD];
        let first_len = word(rt, 1, &mut first);
        let second_len = word(rt, 2, &mut second);
        read(count(rt), &first[0..first_len], &second[0..second_len])
    }
}
