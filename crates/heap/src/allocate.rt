// Allocating: a random slot of the smallest class that holds the size.
ghost use Rattle.std.specs.Prelude.{◌≡◌, ◌≤◌, ◌<◌};
ghost use Rattle.geometry.specs.Layout.{classes, longest_region, slots, slot_start};
ghost use Rattle.rules.specs.Allocate.{allocate};

use crate::lent::Heap;
use answer::{Answer, Refusal};
use geometry::{CLASSES, Layout};

// The value of a slot: where it starts in the heap.
fn slot_start(layout: Layout, class: usize, slot: usize) -> u32
    requires { (layout.region ≤ longest_region) × (class < classes) × (slot ≤ slots layout class) }
    ensures { result ≡ slot_start layout class slot }
{
    (class * layout.region as usize + slot * layout.slot_size(class)) as u32
}

impl Heap<'_> {
    ghost use Rattle.heap.specs.Carried.{IsCarried};

    #[tactic(auto, using(crate::proofs::Part::lies, metadata::proofs::Stored::part_bitmap), unfolding(rules::specs::Allocate::allocate))]
    pub fn allocate(&mut self, size: u32) -> Answer
        ensures { let h = self.old in
            IsCarried h self.new result (allocate h.layout h.metadata.now size) }
    {
        let layout = self.layout;
        let class = layout.class_of(size);
        if CLASSES <= class {
            return Err(Refusal::UnsupportedSize);
        }
        let part = layout.part(class);
        if part.slots < 2 {
            return Err(Refusal::ClassTooSmall);
        }
        let metadata = self.as_metadata();
        let count = metadata.count(class);
        if part.slots / 2 <= count as usize {
            return Err(Refusal::ClassAtCapacity);
        }
        // The part is found once, and not by a method for each use, since it is a sum where a class has few slots.
        // Metadata that count fewer slots than are set may have none clear.
        let found = probe::find(
            &metadata.bytes[part.start..part.end],
            part.slots,
            metadata.generator(),
        );
        if part.slots <= found.slot {
            return Err(Refusal::CorruptMetadata);
        }
        bitmap::set(
            &mut self.metadata[part.start..part.end],
            part.slots,
            found.slot,
        );
        self.store_count(class, count + 1);
        self.store(found.generator);
        Ok(slot_start(layout, class, found.slot))
    }
}
