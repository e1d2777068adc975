// The object that an offset lies in: its remaining size.
ghost use Rattle.std.specs.Prelude.{◌≡◌, ◌+◌, ◌≤◌, ◌<◌, cond, leb, Ok, Err, IfOk};
ghost use Rattle.geometry.specs.Layout.{heap_length, longest_slot};
ghost use Rattle.answer.specs.declared.Refusal.TheVariants.{OutOfRange};
ghost use Rattle.answer.specs.Reply.{reply_of};
ghost use Rattle.rules.specs.Outcome.{reply};
ghost use Rattle.rules.specs.Object.{space, remaining};

use crate::lent::Metadata;
use answer::{Answer, Refusal};
use geometry::{CLASSES, Layout};

// Whether an offset lies past the heap's end.
pub fn is_past(layout: Layout, offset: u32) -> bool
    ensures { result ≡ leb (heap_length layout) offset }
{
    CLASSES * layout.region as usize <= offset as usize
}

impl Metadata<'_> {
    // The bytes from an offset of the heap to the end of the live object that it lies in; 0 where it lies in none.
    #[tactic(auto, using(rules::proofs::Space::space_within, crate::proofs::Part::lies, metadata::proofs::Stored::part_bitmap), unfolding(rules::specs::Object::space))]
    pub fn space(self, offset: u32) -> usize
        requires { offset < heap_length self.layout }
        ensures { let G = self.entry.layout in
            (result ≡ space G self.entry.bytes.now offset) × (offset + result ≤ heap_length G)
            × (result ≤ longest_slot) }
    {
        let at = self.layout.locate(offset);
        let part = self.layout.part(at.class);
        if bitmap::is_set(&self.bytes[part.start..part.end], part.slots, at.slot) {
            self.layout.slot_size(at.class) - at.into
        } else {
            0
        }
    }

    // The space at an offset, which is refused past the heap's end.
    pub fn room(self, offset: u32) -> Result<usize, Refusal>
        ensures room { let G = self.entry.layout in
            result ≡ cond (leb (heap_length G) offset) (Err OutOfRange) (Ok (space G self.entry.bytes.now offset)) }
        ensures within { IfOk result (λ n. (offset + n ≤ heap_length self.entry.layout) × (n ≤ longest_slot)) }
    {
        if is_past(self.layout, offset) {
            return Err(Refusal::OutOfRange);
        }
        Ok(self.space(offset))
    }

    #[tactic(auto, unfolding(rules::specs::Object::remaining))]
    pub fn remaining(self, offset: u32) -> Answer
        ensures { reply_of result ≡ reply self.entry.layout (remaining self.entry.layout self.entry.bytes.now offset) }
    {
        Ok(self.room(offset)? as u32)
    }
}
