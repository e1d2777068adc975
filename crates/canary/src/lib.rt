// Canaries: bytes and all slots of a heap filled with one, and where bytes no longer hold it.
#![tactic(auto)]

ghost use Rattle.std.specs.Prelude.{◌≡◌, ◌+◌, ◌≤◌, length, take};
ghost use Rattle.writing.specs.Overwrite.{overwrite};
ghost use Rattle.canary.specs.Canary.{filled, first_damage, filled_heap};

use geometry::{CLASSES, Layout};
use span::PATTERN;

// The bytes of a canary.
const SIZE: usize = 4;

// The first bytes are filled by words, and the rest by copies of what is written, at most so many at once: a page,
// since shorter copies, which lie any part of a page from their source, were slower in long parts.
const FRONT: usize = 1024;

const COPY: usize = 4096;

// Fills bytes by words. By places, since of bytes lent by `chunks_exact_mut` no contract says what they end as.
fn fill_words(bytes: &mut [u8], canary: u32)
    ensures { bytes.new ≡ filled canary (length bytes.old) }
{
    let four = canary.to_le_bytes();
    let words = bytes.len() / SIZE;
    for word in 0..words {
        bytes[SIZE * word..SIZE * word + SIZE].copy_from_slice(&four);
    }
    writing::write(&mut bytes[SIZE * words..], &four);
}

// Writes the first bytes again, from a place on: by way of an array of its own, which the compiler makes one move.
fn repeat(bytes: &mut [u8], at: usize, len: usize)
    requires { (at + len ≤ length bytes.old) × (len ≤ 4096) }
    ensures { bytes.new ≡ overwrite bytes.old at (take len bytes.old) }
{
    let mut block = [0u8; COPY];
    block[0..len].copy_from_slice(&bytes[0..len]);
    bytes[at..at + len].copy_from_slice(&block[0..len]);
}

// Fills bytes, from the first on. Each copy doubles what is written, up to a page, so no range has the places.
pub fn fill(bytes: &mut [u8], canary: u32)
    ensures { bytes.new ≡ filled canary (length bytes.old) }
{
    if bytes.len() <= FRONT {
        fill_words(bytes, canary);
        return;
    }
    fill_words(&mut bytes[0..FRONT], canary);
    let mut at = FRONT;
    while at < bytes.len() {
        let len = COPY.min(at).min(bytes.len() - at);
        repeat(bytes, at, len);
        at += len;
    }
}

// Fills every slot. Slots are whole canaries long and lie side by side, so a class's are filled as one.
pub fn fill_slots(heap: &mut [u8], layout: Layout, canary: u32)
    ensures { heap.new ≡ filled_heap layout canary heap.old }
{
    for class in 0..CLASSES {
        let start = (class * layout.region as usize).min(heap.len());
        let end = (start + layout.slots(class) * layout.slot_size(class)).min(heap.len());
        fill(&mut heap[start..end], canary);
    }
}

// The first damaged byte; the bytes' length where there is none, as the definition `first_damage` has it: so many bytes
// hold the canary.
#[tactic(auto, using(crate::proofs::Damage::damage_found))]
pub fn first_damage(bytes: &[u8], canary: u32) -> usize
    ensures { result ≡ first_damage canary bytes.now }
{
    let mut pattern = [0u8; PATTERN];
    fill_words(&mut pattern, canary);
    span::same(bytes, &pattern)
}
