// The vote: what most replicas wrote goes on, if two or more wrote it.
#![tactic(auto)]

mod compare;

ghost use Rattle.std.specs.Prelude.{◌≡◌, ◌≤◌, length};
ghost use Rattle.elect.specs.Leader.{mask_of, row_of};
ghost use Rattle.vote.specs.Decide.{first_of, block_in, invalid, count, side_by_side, decide};
ghost use Rattle.vote.specs.Decide.{misplaced, step, agreements, tally, tally_of, refused_with, output_after};
ghost use Rattle.vote.specs.Groups.{elects};

use answer::Refusal;
use compare::Voters;
use elect::MOST;

// Who wins, how many they are and their mask (bit r for replica r).
pub use elect::Elected;

const FEWEST_REPLICAS: usize = 3;

pub const LONGEST_BLOCK: usize = 4096;

// How many replicas there are, how far apart their outputs lie, and in each the place and the length of the bytes that
// are compared.
#[derive(Clone, Copy)]
pub struct Places {
    pub replicas: usize,
    pub apart: usize,
    pub at: usize,
    pub len: usize,
}

// Whether the numbers of a vote on outputs of up to `longest` bytes are not allowed. The factors are judged before they
// are multiplied.
pub fn is_invalid(longest: u32, lent: usize, replicas: usize, len: usize, room: usize) -> bool
    ensures { result ≡ invalid longest lent replicas len room }
{
    replicas < FEWEST_REPLICAS
        || MOST < replicas
        || len < 1
        || (longest as usize) < len
        || lent != replicas * len
        || room < len
}

// The first replicas, a bit each.
#[tactic(auto, using(crate::proofs::Comparing::first_mask))]
pub fn first(replicas: usize) -> u32
    ensures { result ≡ mask_of (first_of replicas) }
{
    (1 << replicas.min(MOST) as u32) - 1
}

// Blocks of one length, one after another.
fn side_by_side(replicas: usize, block_len: usize) -> Places
    ensures { result ≡ side_by_side replicas block_len }
{
    Places {
        replicas,
        apart: block_len,
        at: 0,
        len: block_len,
    }
}

// Voters elect: if two or more share the winner's block, this goes to the front of `output`.
fn elected(voters: Voters, output: &mut [u8]) -> Result<Elected, Refusal>
    requires { voters.places.len ≤ length output.old }
    ensures elects { let v = voters.entry in
        result ≡ elects (agreements (row_of v.voting) (block_in v.outputs.now v.places)) }
    ensures counts { let v = voters.entry in
        let d = count (row_of v.voting) (block_in v.outputs.now v.places) in
        (tally_of result ≡ tally d) × (output.new ≡ output_after d output.old) }
{
    let winner = elect::winner(voters.agreements(), voters.places.replicas);
    let alone = winner.count < 2;
    if alone {
        return Err(Refusal::NoAgreement);
    }
    writing::write(output, voters.block(winner.replica as usize));
    Ok(winner)
}

// The answer of a vote in numbers: 0, the mask of those who win, how many they are and the lowest-numbered of them; or the
// refusal's number, and the block in which a longer vote found no agreement.
#[derive(Clone, Copy)]
pub struct Tally {
    pub number: u32,
    pub mask: u32,
    pub value: u32,
    pub replica: u32,
}

impl Tally {
    // A vote that is refused names nobody.
    pub fn refused(refusal: Refusal, value: u32) -> Tally
        ensures { result ≡ refused_with refusal value }
    {
        Tally {
            number: u32::from(refusal),
            mask: 0,
            value,
            replica: 0,
        }
    }
}

impl From<Result<Elected, Refusal>> for Tally {
    ghost from_gives = { λ verdict tally. tally ≡ tally_of verdict };

    fn from(verdict: Result<Elected, Refusal>) -> Tally {
        match verdict {
            Ok(elected) => Tally {
                number: 0,
                mask: elected.mask,
                value: elected.count,
                replica: elected.replica,
            },
            Err(refusal) => Tally::refused(refusal, 0),
        }
    }
}

// Replicas lie one after another in `blocks`, a block each. The winning block goes to the front of `output`. The numbers
// come apart, as C passes them.
#[tactic(auto, unfolding(crate::specs::Decide::decide), using(crate::proofs::Comparing::first_row, crate::proofs::Decision::placed))]
pub fn vote(
    blocks: &[u8],
    replicas: usize,
    block_len: usize,
    output: &mut [u8],
) -> Result<Elected, Refusal>
    ensures { let d = decide blocks.now replicas block_len (length output.old) in
        (tally_of result ≡ tally d) × (output.new ≡ output_after d output.old) }
{
    if is_invalid(
        LONGEST_BLOCK as u32,
        blocks.len(),
        replicas,
        block_len,
        output.len(),
    ) {
        return Err(Refusal::InvalidVote);
    }
    let voters = Voters {
        outputs: blocks,
        voting: first(replicas),
        places: side_by_side(replicas, block_len),
    };
    elected(voters, output)
}

// Whether replicas, voters, bytes or room are not there for a step.
fn is_misplaced(lent: usize, still: u32, p: Places, room: usize) -> bool
    ensures { result ≡ misplaced lent still p room }
{
    p.replicas < 1
        || MOST < p.replicas
        || still >> p.replicas as u32 != 0
        || p.apart < p.at
        || p.apart - p.at < p.len
        || lent / p.replicas < p.apart
        || room < p.len
}

// A step of a longer vote: those who are still in, a bit each, vote on a part of their outputs. What wins goes to the
// front of `output`.
#[tactic(auto, unfolding(crate::specs::Decide::step), using(crate::proofs::Decision::placed_step))]
pub fn step(outputs: &[u8], still: u32, p: Places, output: &mut [u8]) -> Result<Elected, Refusal>
    ensures { let d = step outputs.now still p (length output.old) in
        (tally_of result ≡ tally d) × (output.new ≡ output_after d output.old) }
{
    if is_misplaced(outputs.len(), still, p, output.len()) {
        return Err(Refusal::InvalidVote);
    }
    let voters = Voters {
        outputs,
        voting: still,
        places: p,
    };
    elected(voters, output)
}
