// Comparing: the table of which two replicas agree.
ghost use Rattle.std.specs.Prelude.{◌≡◌, ◌+◌, ◌*◌, ◌<◌, ◌≤◌, false, length, get_or};
ghost use Rattle.search.specs.Tabulate.{tabulate};
ghost use Rattle.vote.specs.Decide.{block_in, agree, agreements};
ghost use Rattle.elect.specs.Leader.{most, row_of};
ghost use Rattle.vote.specs.Groups.{Placed, group_of, groups_of, together};

use crate::Places;
use elect::{MOST, Row, Table};

// Those who vote, a bit each, on the outputs of all replicas. Methods take it by value: by reference, sixteen replicas
// that all differ took 1.5 times the instructions.
#[derive(Clone, Copy)]
pub struct Voters<'a> {
    pub outputs: &'a [u8],
    pub voting: u32,
    pub places: Places,
    pub ghost placed: { Placed (row_of voting) outputs.now places },
}

impl<'a> Voters<'a> {
    // The bytes of a replica, and where they lie.
    pub fn block(self, replica: usize) -> &'a [u8]
        requires { replica < self.places.replicas }
        ensures { let v = self.entry in
            let p = v.places in
            (result.now ≡ block_in v.outputs.now p replica)
            × (result.ref_ptr ≡ (v.outputs.ref_ptr.0, replica * p.apart + p.at + v.outputs.ref_ptr.1)) }
    {
        let start = replica * self.places.apart + self.places.at;
        let end = start + self.places.len;
        &self.outputs[start..end]
    }

    // Whether a replica votes.
    #[tactic(auto, using(crate::proofs::Comparing::row_bit))]
    fn votes(self, replica: usize) -> bool
        requires { replica < self.places.replicas }
        ensures { result ≡ get_or (row_of self.entry.voting) replica false }
    {
        (self.voting >> replica as u32) % 2 == 1
    }

    // Whether two replicas both vote, and for the same bytes.
    fn agree(self, i: usize, j: usize) -> bool
        requires { (i < self.places.replicas) × (j < self.places.replicas) }
        ensures { let v = self.entry in result ≡ agree (row_of v.voting) (block_in v.outputs.now v.places) i j }
    {
        self.votes(i) && self.votes(j) && alike::same(self.block(i), self.block(j))
    }

    #[tactic(auto, using(search::proofs::First::first_found, search::proofs::First::first_past, search::proofs::First::first_none))]
    fn group(self, i: usize) -> usize
        requires { i < self.places.replicas }
        ensures { let v = self.entry in result ≡ group_of (row_of v.voting) (block_in v.outputs.now v.places) i }
    {
        // `find` was not proved: what it says of the closure's calls has to become `first`.
        for r in 0..i {
            if self.agree(r, i) {
                return r;
            }
        }
        i
    }

    // Two that vote agree where their groups are one, and a replica is compared with earlier ones only until one
    // agrees. A replica that was not looked at yet is its own group.
    #[tactic(auto, using(crate::proofs::Comparing::groups_none, crate::proofs::Comparing::group_le, crate::proofs::Comparing::groups_all))]
    fn groups(self) -> [u8; MOST]
        ensures { let v = self.entry in result ≡ groups_of (row_of v.voting) (block_in v.outputs.now v.places) }
    {
        let mut out = [0u8, 1, 2, 3, 4, 5, 6, 7, 8, 9, 10, 11, 12, 13, 14, 15];
        for i in 1..self.places.replicas {
            // The borrow checker wants the copy: a call's result is not laid into an array that lives on.
            let next = elect::replaced(out, i as u8, self.group(i) as u8);
            out = next;
        }
        out
    }

    // `map` makes no vector: three blocks of 16 bytes took 3.3 times the instructions.
    #[tactic(auto, using(crate::proofs::Comparing::row_done, crate::proofs::Comparing::row_out))]
    fn row(self, groups: [u8; MOST], i: usize) -> Row
        requires { i < self.places.replicas }
        ensures { result ≡ tabulate (together (row_of self.entry.voting) groups i) 0 most }
    {
        let mut out = [false; MOST];
        if self.votes(i) {
            for j in 0..MOST {
                out[j] = groups[i] == groups[j];
            }
        }
        out
    }

    // The table of which two replicas agree.
    #[tactic(auto, using(crate::proofs::Comparing::rows_all))]
    pub fn agreements(self) -> Table
        ensures { let v = self.entry in result ≡ agreements (row_of v.voting) (block_in v.outputs.now v.places) }
    {
        let groups = self.groups();
        let mut out = [[false; MOST]; MOST];
        for i in 0..self.places.replicas {
            out[i] = self.row(groups, i);
        }
        out
    }
}
