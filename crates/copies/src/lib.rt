// Copies into bytes that were lent: what each kind writes, as far as it fits; and zeros.
#![tactic(auto)]

ghost use Rattle.std.specs.Prelude.{◌≡◌, min, ◌≤◌, length, replicate};
ghost use Rattle.scan.specs.Bytes.{index_of};
ghost use Rattle.request.specs.declared.Kind.TheVariants.{String, Padded};
ghost use Rattle.writing.specs.Overwrite.{overwrite};
ghost use Rattle.copies.specs.Writes.{clipped, writes};

use request::Kind;

// Writes zeros throughout.
pub fn clear(bytes: &mut [u8])
    ensures { bytes.new ≡ replicate (length bytes.old) 0 }
{
    // `fill(0)` takes 12 to 15 instructions more, 45 for 30 on 8 bytes.
    bytes.fill_with(|| 0);
}

// How many of the first `count` bytes stand before a zero byte: a length to copy, and so no Option.
#[tactic(auto, using(crate::proofs::Index::index_front))]
fn find_zero(source: &[u8], count: usize) -> usize
    requires { count ≤ length source.now }
    ensures { result ≡ min count (index_of 0 source.now) }
{
    span::other(&source[..count], 0)
}

// Writes the source where it fits; of a longer one what fits, with zero for the last byte.
fn write_clipped(target: &mut [u8], source: &[u8]) -> usize
    ensures { let text = clipped (length target.old) source.now in
        (result ≡ length text) × (target.new ≡ overwrite target.old 0 text) }
{
    let room = target.len();
    let written = writing::write(target, source);
    if 0 < room && room < source.len() {
        target[room - 1] = 0;
    }
    written
}

// Writes the source through its first zero byte, clipped where it does not fit. Nothing past what fits is looked at.
#[tactic(auto, using(crate::proofs::Contents::string_rest))]
fn write_string(target: &mut [u8], source: &[u8]) -> usize
    ensures { let text = writes String source.now (length target.old) in
        (result ≡ length text) × (target.new ≡ overwrite target.old 0 text) }
{
    let seen = source.len().min(target.len());
    let end = find_zero(source, seen);
    if end < seen {
        return writing::write(target, &source[..end + 1]);
    }
    write_clipped(target, source)
}

// Writes the source before its first zero byte and then zeros, `count` bytes in all, as far as they fit.
fn write_padded(target: &mut [u8], source: &[u8], count: u32) -> usize
    ensures { let text = writes (Padded count) source.now (length target.old) in
        (result ≡ length text) × (target.new ≡ overwrite target.old 0 text) }
{
    let room = (count as usize).min(target.len());
    let seen = source.len().min(room);
    let text = find_zero(source, seen);
    writing::write(target, &source[..text]);
    clear(&mut target[text..room]);
    room
}

// Writes what a copy of this kind writes, as far as it fits.
pub fn write(target: &mut [u8], source: &[u8], kind: Kind) -> usize
    ensures { let text = writes kind source.now (length target.old) in
        (result ≡ length text) × (target.new ≡ overwrite target.old 0 text) }
{
    match kind {
        Kind::Bytes => writing::write(target, source),
        Kind::String => write_string(target, source),
        Kind::Padded(count) => write_padded(target, source, count),
    }
}
