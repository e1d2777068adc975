// Spans: how many bytes from the first on are those of a pattern over and over, and how many are other than a byte.
#![tactic(auto)]

ghost use Rattle.std.specs.Prelude.{◌≡◌, ◌+◌, ◌-◌, ◌%◌, ◌≤◌, ltb, length};
ghost use Rattle.search.specs.First.{first};
ghost use Rattle.span.specs.Pattern.{is_other, is_byte, is_sought, first_sought, Laid};

// The bytes of a pattern.
pub const PATTERN: usize = 64;

// A search goes by long blocks, then by shorter ones, and then by bytes.
const LONG: usize = 128;

const MIDDLE: usize = 32;

const SHORT: usize = 8;

// What is sought: bytes that are equal to those of a pattern, or bytes that are not. The pattern begins anew after
// `period` bytes.
#[derive(Drop)]
struct Sought<'a> {
    pattern: &'a [u8],
    period: usize,
    equal: bool,
}

impl Sought<'_> {
    // Whether a byte of a block is one sought, where the pattern is at a place. The loop has no early exit, so that it
    // vectorises.
    fn is_in(&self, bytes: &[u8], at: usize, place: usize, block: usize) -> bool
        requires { (at + block ≤ length bytes.now) × (place + block ≤ length self.now.pattern.now) }
        ensures { let s = self.now in
            let test = is_sought s.equal s.pattern.now place bytes.now at in
            result ≡ ltb (first test 0 block) block }
    {
        let mut found = false;
        // One index serves the bytes and the pattern.
        for i in 0..block {
            found |= self.equal == (bytes[at + i] == self.pattern[place + i]);
        }
        found
    }

    // Passes over whole blocks without one, from a place that none comes before. How many bytes are left is counted
    // apart: the compiler makes a shorter loop of it. A range would count blocks, and not the places asked for.
    fn skip(&self, bytes: &[u8], from: usize, block: usize) -> usize
        requires { let s = self.now in
            (from ≤ first_sought s.equal s.period s.pattern.now bytes.now) × (from % block ≡ 0)
            × Laid s.pattern.now s.period block }
        ensures { let s = self.now in
            let end = first_sought s.equal s.period s.pattern.now bytes.now in
            result ≡ end - end % block }
    {
        let mut at = from;
        let mut left = bytes.len() - from;
        while block <= left {
            if self.is_in(bytes, at, at % self.period, block) {
                return at;
            }
            at += block;
            left -= block;
        }
        at
    }
}

// How many bytes from the first on are the pattern's, over and over.
pub fn same(bytes: &[u8], pattern: &[u8; PATTERN]) -> usize
    ensures { let b = bytes.now in
        result ≡ first (is_other pattern.now b) 0 (length b) }
{
    let others = Sought {
        pattern,
        period: PATTERN,
        equal: false,
    };
    let far = others.skip(bytes, 0, PATTERN);
    let near = others.skip(bytes, far, SHORT);
    others.skip(bytes, near, 1)
}

// How many bytes from the first on are other than this one.
pub fn other(bytes: &[u8], byte: u8) -> usize
    ensures { let b = bytes.now in
        result ≡ first (is_byte byte b) 0 (length b) }
{
    let laid = [byte; LONG];
    let one = Sought {
        pattern: &laid,
        period: 1,
        equal: true,
    };
    let far = one.skip(bytes, 0, LONG);
    let middle = one.skip(bytes, far, MIDDLE);
    let near = one.skip(bytes, middle, SHORT);
    one.skip(bytes, near, 1)
}
