// Rows of all replicas: groups of them, and the winner of a table of which two agree.
#![tactic(auto)]

ghost use Rattle.std.specs.Prelude.{◌≡◌, ◌≤◌, min, take, get_or};
ghost use Rattle.search.specs.Tabulate.{tabulate};
ghost use Rattle.elect.specs.Leader.{most, digits, votes, elected_of, instead};

// All replicas of a table.
pub const MOST: usize = 16;

// What a replica says of each.
pub type Row = [bool; MOST];

pub type Table = [Row; MOST];

// The lowest-numbered replica with most votes, how many these are, and whose.
#[derive(Clone, Copy)]
pub struct Elected {
    pub replica: u32,
    pub count: u32,
    pub mask: u32,
}

// The first n replicas of a row as digits: in base 1 how many it says yes to, in base 2 their mask. The base is a
// number, as in the definition `digits base row`.
#[tactic(auto, using(crate::proofs::Rows::summed_none, crate::proofs::Rows::summed_more))]
fn digits(row: Row, base: u32, n: usize) -> u32
    requires { (base ≤ 2) × (n ≤ most) }
    ensures { result ≡ digits base (take n row) }
{
    let mut sum = 0;
    // Over a slice with `.iter().rev()` it took 1.07 to 1.11 times the instructions for blocks of 16 bytes.
    for i in (0..n).rev() {
        sum = row[i] as u32 + base * sum;
    }
    sum
}

#[tactic(auto, using(crate::proofs::Rows::all_of))]
fn votes(row: Row) -> u32
    ensures { result ≡ votes row }
{
    digits(row, 1, MOST)
}

// The lowest-numbered among those of the first replicas that have most votes. Of none the first leads.
#[tactic(auto, using(crate::proofs::Leading::led_le, crate::proofs::Leading::led_votes, crate::proofs::Leading::led_all))]
pub fn winner(table: Table, replicas: usize) -> Elected
    ensures { result ≡ elected_of table (min replicas most) }
{
    let last = replicas.min(MOST);
    let mut best = 0;
    let mut top = 0;
    for (i, row) in table[..last.max(1)].iter().enumerate() {
        let votes = votes(*row);
        if top < votes {
            best = i;
            top = votes;
        }
    }
    Elected {
        replica: best as u32,
        count: top,
        mask: digits(table[best], 2, last),
    }
}

// Each replica's group, with one group instead of another. Every entry is made anew, since a vector that is loaded from
// bytes just stored waits for them; `map` makes no vector, and three blocks of 16 bytes take 3 times the instructions.
pub fn replaced(groups: [u8; MOST], old: u8, new: u8) -> [u8; MOST]
    ensures { result ≡ tabulate (λ j. instead old new (get_or groups j 0)) 0 most }
{
    let mut out = [0; MOST];
    for j in 0..MOST {
        out[j] = if groups[j] == old { new } else { groups[j] };
    }
    out
}
