// Writing over bytes: the definition and its laws, for the contracts and proofs of the crates above, the one copy from
// lent bytes to lent bytes, and the one move within lent bytes.
#![tactic(auto)]

ghost use Rattle.std.specs.Prelude.{◌≡◌, ◌≤◌, length, take, drop};
ghost use Rattle.writing.specs.Overwrite.{overwrite};

// Writes the source, as far as it fits.
pub fn write(target: &mut [u8], source: &[u8]) -> usize
    ensures { let text = take (length target.old) source.now in
        (result ≡ length text) × (target.new ≡ overwrite target.old 0 text) }
{
    let count = source.len().min(target.len());
    target[..count].copy_from_slice(&source[..count]);
    count
}

// Moves `count` bytes from a place on to the front, or as many as there are, and answers how many.
pub fn shift(bytes: &mut [u8], from: usize, count: usize) -> usize
    ensures { let part = take count (drop from bytes.old) in
        (result ≡ length part) × (bytes.new ≡ overwrite bytes.old 0 part) }
{
    let start = from.min(bytes.len());
    let moved = count.min(bytes.len() - start);
    bytes.copy_within(start..start + moved, 0);
    moved
}
