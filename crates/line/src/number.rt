// Numbers of 32 bits in decimal.
ghost use Rattle.std.specs.Prelude.{◌≡◌};
ghost use Rattle.line.specs.Number.{more, number};

// A number with one more digit.
#[tactic(auto, unfolding(crate::specs::Number::more))]
fn more(n: u32, byte: u8) -> Option<u32>
    ensures { result ≡ more n byte }
{
    if !byte.is_ascii_digit() {
        return None;
    }
    let tens = n.checked_mul(10)?;
    tens.checked_add((byte - b'0') as u32)
}

// The number that a word spells, if it spells one.
#[tactic(auto, using(crate::proofs::Digits::digits_more), unfolding(crate::specs::Number::with_digits))]
pub fn of(word: &[u8]) -> Option<u32>
    ensures { result ≡ number word.now }
{
    if word.is_empty() {
        return None;
    }
    let mut n: u32 = 0;
    for byte in word {
        n = more(n, *byte)?;
    }
    Some(n)
}
