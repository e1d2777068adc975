// Numbers in decimal, as text.
#![tactic(auto)]

ghost use Rattle.std.specs.Prelude.{◌≡◌, ◌+◌, ◌-◌, ◌<◌, ◌≤◌, length};
ghost use Rattle.writing.specs.Overwrite.{overwrite};
ghost use Rattle.decimal.specs.Decimal.{width, decimal, decimal_within};

use std::marker::Model;

// The most digits that a number has.
pub const WIDTH: usize = 20;

// The digits of a number: those at the end of an array, from `start` on. By hand: std's `InlineText` takes 255
// instructions for a number, and this 125.
#[derive(Drop)]
struct Digits {
    text: [u8; WIDTH],
    start: usize,
}

impl Model for Digits {
    ghost use Rattle.std.specs.Prelude.{ℕ, ◌≤◌, List, drop};
    ghost use Rattle.decimal.specs.Decimal.{width};

    ghost Value = { List ℕ };

    ghost view = { λ d. drop d.start d.text };

    ghost invariant = { λ d. d.start ≤ width };
}

impl Digits {
    fn of(n: u64) -> Digits
        ensures { result ≡ decimal n }
    {
        let mut text = [0u8; WIDTH];
        let mut start = WIDTH - 1;
        let mut rest = n;
        // The number ends this loop, not a place.
        while 9 < rest {
            text[start] = glyph(rest % 10);
            start -= 1;
            rest /= 10;
        }
        text[start] = glyph(rest);
        Digits { text, start }
    }

    fn bytes(&self) -> &[u8]
        ensures place { result.ref_ptr ≡ (self.entry.ref_ptr.0, (width - length self.now) + self.entry.ref_ptr.1) }
        ensures text { result.now ≡ self.now }
        ensures within { length self.now ≤ width }
    {
        &self.text[self.start..]
    }
}

fn glyph(digit: u64) -> u8
    requires { digit < 10 }
    ensures { result ≡ 48 + digit }
{
    48 + digit as u8
}

// Writes a number at a place, and answers the place after it. Where there may be no room for a number, nothing is
// written. Buffer and place are two, as its clauses name them.
pub fn put(out: &mut [u8], at: usize, n: u64) -> usize
    ensures place { let text = decimal_within (length out.old - at) n in
        (result ≡ at + length text) × (result ≤ at + width) }
    ensures out_after { let text = decimal_within (length out.old - at) n in
        out.new ≡ overwrite out.old at text }
{
    if out.len().saturating_sub(at) < WIDTH {
        return at;
    }
    let digits = Digits::of(n);
    let text = digits.bytes();
    let end = at + text.len();
    out[at..end].copy_from_slice(text);
    end
}
