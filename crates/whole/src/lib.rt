// The vote on whole outputs: they vote block by block, and who loses a block takes no part in later ones.
#![tactic(auto)]

ghost use Rattle.std.specs.Prelude.{◌≡◌, ◌≤◌, false, length};
ghost use Rattle.vote.specs.Decide.{first_of, invalid};
ghost use Rattle.whole.specs.Whole.{longest_output, blocks, block_at, through, whole, answer_of};

use answer::Refusal;
use vote::{Elected, LONGEST_BLOCK, Places, Tally};

const LONGEST_OUTPUT: usize = 1048576;

#[derive(Clone, Copy)]
pub enum Failure {
    // No two of those who are still in agree in this block, counted from 0.
    Split { block: u32 },
    Refused(Refusal),
}

// What a whole vote answers in numbers: of no agreement the value is the block. A function, since neither of the types
// is this crate's own.
pub fn tally(verdict: Result<Elected, Failure>) -> Tally
    ensures { result ≡ answer_of verdict }
{
    match verdict {
        Ok(elected) => Tally::from(Ok(elected)),
        Err(Failure::Split { block }) => Tally::refused(Refusal::NoAgreement, block),
        Err(Failure::Refused(refusal)) => Tally::refused(refusal, 0),
    }
}

// The block of each output from a place on: the last one may be shorter than the others.
fn block_at(replicas: usize, len: usize, at: usize) -> Places
    requires { at ≤ len }
    ensures { result ≡ block_at replicas len at }
{
    Places {
        replicas,
        apart: len,
        at,
        len: LONGEST_BLOCK.min(len - at),
    }
}

// Votes on block after block, as long as two of those who are still in agree.
fn through(
    outputs: &[u8],
    replicas: usize,
    len: usize,
    output: &mut [u8],
) -> Result<Elected, Failure>
    requires { invalid longest_output (length outputs.now) replicas len (length output.old) ≡ false }
    ensures { let all = first_of replicas in
        let voted = through outputs.now replicas len (blocks len) 0 all output.old in
        (answer_of result ≡ voted.answer) × (output.new ≡ voted.output) }
{
    let mut still = vote::first(replicas);
    let mut block = 0;
    let mut at = 0;
    // No `for`: the answer is what the last block's vote gives, and there is a block.
    loop {
        let p = block_at(replicas, len, at);
        let left = vote::step(outputs, still, p, &mut output[at..]).map_err(|_| Failure::Split {
            block,
        })?;
        at += p.len;
        let ended = at == len;
        if ended {
            return Ok(left);
        }
        still = left.mask;
        block += 1;
    }
}

// Outputs of one length lie one after another. What the replicas left at the end share goes to the front of `output`;
// where no two agree in a block, the blocks before it do. The numbers come apart, as C passes them.
pub fn vote(
    outputs: &[u8],
    replicas: usize,
    len: usize,
    output: &mut [u8],
) -> Result<Elected, Failure>
    ensures { let voted = whole outputs.now replicas len output.old in
        (answer_of result ≡ voted.answer) × (output.new ≡ voted.output) }
{
    if vote::is_invalid(
        LONGEST_OUTPUT as u32,
        outputs.len(),
        replicas,
        len,
        output.len(),
    ) {
        return Err(Failure::Refused(Refusal::InvalidOutputs));
    }
    through(outputs, replicas, len, output)
}
