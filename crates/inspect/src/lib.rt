// Inspection: the offsets of all clear slots that no longer hold the canary throughout.
#![tactic(auto)]

ghost use Rattle.std.specs.Prelude.{◌≡◌, suc, ◌*◌, ◌/◌, ◌<◌, length, take};
ghost use Rattle.writing.specs.Overwrite.{overwrite};
ghost use Rattle.answer.specs.Reply.{reply_of};
ghost use Rattle.judge.specs.Judge.{Fits};
ghost use Rattle.rules.specs.Inspect.{is_hit, hits, listed_whole, inspection};
ghost use Rattle.inspect.specs.Class.{is_hit_in, first_within, SideBySide};

use answer::{Answer, Refusal};
use geometry::{CANARY, CLASSES, Layout};
use numbers::power_quotient;

// A heap and metadata that fit their layout, which has regions. What crate `heap` has of this name lends to write, and
// neither crate knows of the other.
#[derive(Clone, Copy)]
struct Heap<'a> {
    bytes: &'a [u8],
    metadata: &'a [u8],
    layout: Layout,
    ghost fits: { Fits layout (length bytes.now) (length metadata.now) },
    ghost some: { 0 < layout.region },
}

// The first slot from `from` on that is clear and damaged, of slots that lie side by side. From a clear slot on, all
// that hold the canary are passed over in one search: a step is as long as that, so that no range counts them.
fn next_slot(
    bytes: &[u8],
    bitmap: &[u8],
    slots: usize,
    size: usize,
    canary: u32,
    from: usize,
) -> Option<usize>
    requires { SideBySide bytes.now slots size }
    ensures { result ≡ first_within (is_hit_in canary bytes.now bitmap.now slots size) from slots }
{
    let mut slot = from;
    while slot < slots {
        if bitmap::is_set(bitmap, slots, slot) {
            slot += 1;
        } else {
            let start = slot * size;
            let intact = power_quotient(canary::first_damage(&bytes[start..], canary), size);
            if intact == 0 {
                return Some(slot);
            }
            slot += intact;
        }
    }
    None
}

impl Heap<'_> {
    // The first hit from an offset on in its region.
    #[tactic(auto, using(metadata::proofs::Stored::part_rises, metadata::proofs::Stored::part_ends, crate::proofs::Region::around))]
    fn next_in_region(&self, at: usize) -> Option<usize>
        requires { at < length self.now.bytes.now }
        ensures { let h = self.now in
            let end = suc (at / h.layout.region) * h.layout.region in
            result ≡ first_within (is_hit h.layout h.metadata.now h.bytes.now) at end }
    {
        let region = self.layout.region as usize;
        let class = power_quotient(at, region);
        let start = class * region;
        let size = self.layout.slot_size(class);
        let part = self.layout.part(class);
        let slots = part.slots;
        let slot = next_slot(
            &self.bytes[start..start + slots * size],
            &self.metadata[part.start..part.end],
            slots,
            size,
            words::get(self.metadata, CANARY),
            power_quotient(at - start + size - 1, size),
        )?;
        Some(start + slot * size)
    }

    // The first hit from an offset on.
    fn next(&self, from: usize) -> Option<usize>
        ensures { let h = self.now in
            result ≡ first_within (is_hit h.layout h.metadata.now h.bytes.now) from (length h.bytes.now) }
    {
        let region = self.layout.region as usize;
        // Not by `find_map`: the proof of what it finds over a range did not close.
        for class in power_quotient(from, region)..CLASSES {
            if let Some(hit) = self.next_in_region(from.max(class * region)) {
                return Some(hit);
            }
        }
        None
    }

    // Writes the hits as far as the list goes, and answers how many they are. It counts by itself, since hits past the
    // list's end count too, and each search begins right behind the last hit.
    fn collect(&self, list: &mut [u32]) -> usize
        ensures { let h = self.now in
            let found = hits h.layout h.metadata.now h.bytes.now in
            let l = list.old in
            (result ≡ length found) × (list.new ≡ overwrite l 0 (take (length l) found)) }
    {
        let mut found: usize = 0;
        let mut at: usize = 0;
        while let Some(hit) = self.next(at) {
            if found < list.len() {
                list[found] = hit as u32;
            }
            found += 1;
            at = hit + 1;
        }
        found
    }

    // Lists the hits, after a look at how many they are: a list that is too short is left as it is.
    fn list_whole(&self, list: &mut [u32]) -> Answer
        ensures { let h = self.now in
            let whole = listed_whole list.old (hits h.layout h.metadata.now h.bytes.now) in
            (reply_of result ≡ whole.answer) × (list.new ≡ whole.list) }
    {
        let wanted = self.collect(&mut list[0..0]);
        if list.len() < wanted {
            return Err(Refusal::ListTooShort);
        }
        if wanted == 0 {
            return Ok(0);
        }
        self.collect(list);
        Ok(wanted as u32)
    }
}

#[tactic(auto, unfolding(rules::specs::Inspect::inspection))]
pub fn inspect(heap: &[u8], metadata: &[u8], list: &mut [u32]) -> Answer
    ensures { let inspected = inspection heap.now metadata.now list.old in
        (reply_of result ≡ inspected.answer) × (list.new ≡ inspected.list) }
{
    let layout = judge::admit(heap.len(), metadata)?;
    let lent = Heap {
        bytes: heap,
        metadata,
        layout,
    };
    lent.list_whole(list)
}
