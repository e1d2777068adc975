// Where things lie: the regions and slots of a heap, and the bitmaps of its metadata.
#![tactic(auto)]

ghost use Rattle.std.specs.Prelude.{◌≡◌, ◌+◌, ◌*◌, ◌^◌, ◌<◌, ◌≤◌};
ghost use Rattle.geometry.specs.Layout.{classes, slot_size, slots, class_of, locate};
ghost use Rattle.geometry.specs.Layout.{header, bitmap_length, bitmap_at, part_of, plan_of};

use numbers::{power_quotient, power_remainder, quotient, remainder};
use sizes::{usual_class, usual_size};

pub const CLASSES: usize = sizes::CLASSES;

const LAST_CLASS: usize = CLASSES - 1;

// Where the metadata keep the live counts, a word of four bytes for each class, and then the canary.
pub const COUNTS: usize = 8;

pub const CANARY: usize = COUNTS + 4 * CLASSES;

// The length of the fields before the bitmaps.
pub const HEADER: usize = CANARY + 4;

// How a heap is laid out. A region length of 0 stands for no heap, as in the definitions, where no slot of it is asked
// for: it has none.
#[derive(Clone, Copy)]
pub struct Layout {
    pub region: u32,
}

// What a heap's length tells: its layout, and the length of its metadata.
#[derive(Clone, Copy)]
pub struct Plan {
    pub layout: Layout,
    pub metadata: usize,
}

// The part of the metadata that holds a class's bitmap, and how many slots the bitmap has.
#[derive(Clone, Copy)]
pub struct Part {
    pub slots: usize,
    pub start: usize,
    pub end: usize,
}

// The class and the slot in whose bytes an offset lies, and how far it lies into the slot.
#[derive(Clone, Copy)]
pub struct Location {
    pub class: usize,
    pub slot: usize,
    pub into: usize,
}

// A power of two that a region length can be, or twice the largest.
fn power(exponent: u32) -> u32
    requires { exponent < 22 }
    ensures { (result ≡ 2 ^ exponent) × (result ≤ 2097152) }
{
    1 << exponent
}

impl Layout {
    // The bytes of a slot; 0 past the last class, as the definition `slot_size` has it, and so no Option.
    #[tactic(auto, unfolding(crate::specs::Layout::slot_size))]
    pub fn slot_size(self, class: usize) -> usize
        ensures { result ≡ slot_size self class }
    {
        usual_size(class)
    }

    pub fn slots(self, class: usize) -> usize
        ensures { (result ≡ slots self class) × (result < 4294967296) }
    {
        quotient(self.region as usize, self.slot_size(class))
    }

    // The class of a size; CLASSES where no slot is large enough, as the definition `class_of` has it: so no Option.
    #[tactic(auto, unfolding(crate::specs::Layout::slot_size))]
    pub fn class_of(self, size: u32) -> usize
        ensures { result ≡ class_of self size }
    {
        usual_class(size)
    }

    pub fn locate(self, offset: u32) -> Location
        ensures { result ≡ locate self offset }
    {
        let region = self.region as usize;
        let at = offset as usize;
        let class = power_quotient(at, region);
        let within = power_remainder(at, region);
        let size = self.slot_size(class);
        Location {
            class,
            slot: quotient(within, size),
            into: remainder(within, size),
        }
    }

    // The bytes of a class's bitmap.
    fn bitmap_length(self, class: usize) -> usize
        ensures { (result ≡ bitmap_length self class) × (result ≤ 536870912) }
    {
        (self.slots(class) + 7) / 8
    }

    // Where a class's bitmap starts in the metadata, summed up.
    fn summed_start(self, class: usize) -> usize
        ensures { (result ≡ bitmap_at self class) × (result ≤ header + classes * 536870912) }
    {
        let mut at = HEADER;
        for passed in 0..class.min(CLASSES) {
            at += self.bitmap_length(passed);
        }
        at
    }

    // The same without a sum, as long as the bitmaps are whole bytes: then each is half as long as the one before, and
    // all before a class are twice the first without the last.
    fn bitmap_start(self, class: usize) -> usize
        ensures { (result ≡ bitmap_at self class) × (result ≤ header + classes * 536870912) }
    {
        if class < CLASSES {
            let region = self.region as usize;
            let four = 4 * self.slot_size(class);
            if region % four == 0 {
                return HEADER + region / 32 - region / four;
            }
        }
        self.summed_start(class)
    }

    // A bitmap ends where the next one starts.
    #[tactic(auto, unfolding(crate::specs::Layout::bitmap_at))]
    pub fn part(self, class: usize) -> Part
        ensures { result ≡ part_of self class }
    {
        let start = self.bitmap_start(class);
        Part {
            slots: self.slots(class),
            start,
            end: start + self.bitmap_length(class),
        }
    }
}

impl Plan {
    // The plan of a heap of this length; its region length is 0 where the length is not allowed, as the definition
    // `plan_of` has it, and so no Option. Twice a region has one bitmap more in front and all others a class later. So
    // the sum is made once, and the compiler, which knows where it starts, makes it beforehand.
    pub fn of(heap_len: usize) -> Plan
        ensures { result ≡ plan_of heap_len }
    {
        let first = Layout { region: power(10) };
        let mut metadata = first.bitmap_start(CLASSES);
        for exponent in 10..21 {
            let layout = Layout {
                region: power(exponent),
            };
            if heap_len == CLASSES * layout.region as usize {
                return Plan { layout, metadata };
            }
            let twice = Layout {
                region: power(exponent + 1),
            };
            metadata = metadata + twice.bitmap_length(0) - layout.bitmap_length(LAST_CLASS);
        }
        Plan {
            layout: Layout { region: 0 },
            metadata: HEADER,
        }
    }
}
