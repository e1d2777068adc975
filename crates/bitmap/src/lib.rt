// One class's bitmap: the bytes that hold it and how many slots it has. Bits beyond the slots are neither tested
// nor changed.
#![tactic(auto)]

ghost use Rattle.std.specs.Prelude.{◌≡◌, ◌-◌, ◌/◌, ◌%◌, ◌^◌, ◌<◌};
ghost use Rattle.std.specs.Option.{SomeIff};
ghost use Rattle.search.specs.First.{first};
ghost use Rattle.bitmap.specs.Bitmap.{is_set, is_clear, set_slot, clear_slot, next_clear};

// A bit of a byte, counted from the lowest.
fn bit_of(byte: u8, place: usize) -> u8
    requires { place < 8 }
    ensures { result ≡ byte / 2 ^ place % 2 }
{
    (byte >> place) % 2
}

pub fn is_set(bitmap: &[u8], slots: usize, slot: usize) -> bool
    ensures { result ≡ is_set bitmap.now slots slot }
{
    slot < slots
        && bitmap
            .get(slot / 8)
            .is_some_and(|byte| bit_of(*byte, slot % 8) == 1)
}

// Sets a slot that the bitmap has; one beyond it changes nothing. The test stands here and in `clear`: a function for
// it, which answers with the byte's place, took three instructions more.
#[tactic(auto, using(crate::proofs::Slot::set_within, crate::proofs::Slot::put_out))]
pub fn set(bitmap: &mut [u8], slots: usize, slot: usize)
    ensures { bitmap.new ≡ set_slot bitmap.old slots slot }
{
    if slot < slots && slot / 8 < bitmap.len() {
        bitmap[slot / 8] |= 1 << slot % 8;
    }
}

// Clears a slot that the bitmap has; one beyond it changes nothing.
#[tactic(auto, using(crate::proofs::Slot::clear_within, crate::proofs::Slot::put_out))]
pub fn clear(bitmap: &mut [u8], slots: usize, slot: usize)
    ensures { bitmap.new ≡ clear_slot bitmap.old slots slot }
{
    if slot < slots && slot / 8 < bitmap.len() {
        let place = slot % 8;
        bitmap[slot / 8] ^= bit_of(bitmap[slot / 8], place) << place;
    }
}

// The first clear slot from `from` on. `find` over the range took a seventh more instructions for each slot.
fn first_clear(bitmap: &[u8], slots: usize, from: usize) -> Option<usize>
    ensures { let found = first (is_clear bitmap.now slots) from (slots - from) in
        SomeIff result (found < slots) found }
{
    for slot in from..slots {
        if !is_set(bitmap, slots, slot) {
            return Some(slot);
        }
    }
    None
}

// The next clear slot above `last`, going on from slot 0 past the end; `slots` where all are set, as the definition
// `next_clear` has it, and so no Option.
#[tactic(auto, using(crate::proofs::Walk::walk_above, crate::proofs::Walk::walk_around))]
pub fn next_clear(bitmap: &[u8], slots: usize, last: usize) -> usize
    ensures { result ≡ next_clear bitmap.now slots last }
{
    match first_clear(bitmap, slots, last.saturating_add(1)) {
        Some(slot) => slot,
        None => first_clear(bitmap, slots, 0).unwrap_or(slots),
    }
}
