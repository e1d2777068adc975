// Whether two lists of bytes are the same: a definition and its laws, for the contracts and proofs of the crates above,
// and the comparing of lent bytes.
#![tactic(auto)]

ghost use Rattle.std.specs.Prelude.{◌≡◌, ◌<◌, ◌≤◌};
ghost use Rattle.alike.specs.Alike.{alike};

// Whole blocks of this length are compared block by block, and fewer bytes by shorter blocks.
const BLOCK: usize = 64;

const SHORT_BLOCK: usize = 16;

// Block by block, and then what is left over. How long a block is, is known, so that it is compared in place: std's
// `==` of slices is a call wherever the first four bytes are the same.
#[tactic(auto, using(crate::proofs::Equal::pointwise_alike))]
fn same_by<const N: usize>(a: &[u8], b: &[u8]) -> bool
    requires { (0 < N) × (N ≤ 64) }
    ensures { result ≡ alike a.now b.now }
{
    let mut rest = a;
    let mut other = b;
    while let (Some((x, more)), Some((y, further))) = (
        rest.split_first_chunk::<N>(),
        other.split_first_chunk::<N>(),
    ) {
        if x != y {
            return false;
        }
        rest = more;
        other = further;
    }
    rest == other
}

#[tactic(auto, using(crate::proofs::Equal::pointwise_alike))]
pub fn same(a: &[u8], b: &[u8]) -> bool
    ensures { result ≡ alike a.now b.now }
{
    let block = if a.len() < BLOCK { SHORT_BLOCK } else { BLOCK };
    // Bytes that are no whole blocks would be compared by a call all the same, for what is left over.
    if a.len() != b.len() || a.is_empty() || a.len() % block != 0 {
        return a == b;
    }
    if a.len() < BLOCK {
        same_by::<SHORT_BLOCK>(a, b)
    } else {
        same_by::<BLOCK>(a, b)
    }
}
