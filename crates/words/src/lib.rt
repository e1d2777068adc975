// Stored numbers: 32 bits in four bytes, lowest first.
#![tactic(auto)]

ghost use Rattle.std.specs.Prelude.{◌≡◌, ◌%◌, ◌<◌, get_or};
ghost use Rattle.words.specs.Word.{word_of, word_at, put_word};

// The bytes of a number.
const SIZE: usize = 4;

// A byte, or 0 past the end.
fn byte(b: &[u8], i: usize) -> u8
    ensures { result ≡ get_or b.now i 0 }
{
    b.get(i).copied().unwrap_or(0)
}

// The number stored at a place; a byte past the end counts 0.
pub fn get(b: &[u8], at: usize) -> u32
    ensures { result ≡ word_at b.now at }
{
    if b.len() <= at {
        return 0;
    }
    let rest = &b[at..];
    match rest.first_chunk::<SIZE>() {
        Some(four) => u32::from_le_bytes(*four),
        None => u32::from_le_bytes([byte(rest, 0), byte(rest, 1), byte(rest, 2), 0]),
    }
}

// Stores a number at a place; nothing where there are not four bytes from it on.
pub fn put(b: &mut [u8], at: usize, n: u32)
    ensures { b.new ≡ put_word b.old at n }
{
    if SIZE <= b.len() && at <= b.len() - SIZE {
        b[at..at + SIZE].copy_from_slice(&n.to_le_bytes());
    }
}
