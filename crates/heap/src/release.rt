// Freeing an object: its slot is clear, counted no more and filled with the canary again.
ghost use Rattle.rules.specs.Object.{free};

use crate::lent::Heap;
use crate::object::is_past;
use answer::{Answer, Refusal};

impl Heap<'_> {
    ghost use Rattle.heap.specs.Carried.{IsCarried};

    // A served free answers how long the slot is.
    #[tactic(auto, using(geometry::proofs::Slots::slots_class, crate::proofs::Part::lies, metadata::proofs::Stored::part_bitmap), unfolding(rules::specs::Object::free))]
    pub fn free(&mut self, offset: u32) -> Answer
        ensures { let h = self.old in
            IsCarried h self.new result (free h.layout h.metadata.now offset) }
    {
        let layout = self.layout;
        if is_past(layout, offset) {
            return Err(Refusal::OutOfRange);
        }
        let at = layout.locate(offset);
        if 0 < at.into || layout.slots(at.class) <= at.slot {
            return Err(Refusal::NotASlotStart);
        }
        let part = layout.part(at.class);
        let metadata = self.as_metadata();
        if !bitmap::is_set(&metadata.bytes[part.start..part.end], part.slots, at.slot) {
            return Err(Refusal::NotAllocated);
        }
        let count = metadata.count(at.class);
        if count == 0 {
            return Err(Refusal::CorruptMetadata);
        }
        let canary = metadata.canary();
        bitmap::clear(
            &mut self.metadata[part.start..part.end],
            part.slots,
            at.slot,
        );
        self.store_count(at.class, count - 1);
        let start = offset as usize;
        let size = layout.slot_size(at.class);
        canary::fill(&mut self.bytes[start..start + size], canary);
        Ok(size as u32)
    }
}
