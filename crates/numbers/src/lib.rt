// Arithmetic on machine numbers as the definitions have it: every function has an answer for all numbers.
#![tactic(auto)]

ghost use Rattle.std.specs.Prelude.{◌≡◌, ◌/◌, ◌%◌, ◌≤◌};

// 0 where b is.
pub fn quotient(a: usize, b: usize) -> usize
    ensures { (result ≡ a / b) × (result ≤ a) }
{
    a.checked_div(b).unwrap_or(0)
}

// a where b is 0.
pub fn remainder(a: usize, b: usize) -> usize
    ensures { result ≡ a % b }
{
    a.checked_rem(b).unwrap_or(a)
}

// The same where b is most often a power of two: then nothing is divided. Whether it is one is not left to
// `is_power_of_two`: std has no law that leads from its answer to a power.
pub fn power_quotient(a: usize, b: usize) -> usize
    ensures { (result ≡ a / b) × (result ≤ a) }
{
    let places = b.trailing_zeros() % 64;
    if b == 1 << places {
        return a >> places;
    }
    quotient(a, b)
}

#[tactic(auto, using(crate::proofs::Power::masked))]
pub fn power_remainder(a: usize, b: usize) -> usize
    ensures { result ≡ a % b }
{
    if b == 1 << b.trailing_zeros() % 64 {
        return a & b - 1;
    }
    remainder(a, b)
}
