// The slots of a layout, as the C interface names them.
ghost use Rattle.std.specs.Prelude.{◌≡◌, ◌≤◌};
ghost use Rattle.geometry.specs.Layout.{longest_region};
ghost use Rattle.capi.specs.Slots.{slot_of, all_slots};

use crate::PohelduSlot;
use geometry::{CLASSES, Layout};

// All is 0 where the class has no such slot.
pub fn numbered(layout: Layout, class: usize, number: usize) -> PohelduSlot
    requires { layout.region ≤ longest_region }
    ensures { result ≡ slot_of layout class number }
{
    if layout.slots(class) <= number {
        return PohelduSlot::default();
    }
    let size = layout.slot_size(class);
    let start = class * layout.region as usize + number * size;
    PohelduSlot {
        size_class: class as u32,
        number: number as u32,
        start: start as u32,
        len: size as u32,
    }
}

pub fn all(layout: Layout) -> usize
    ensures { result ≡ all_slots layout }
{
    let mut slots: usize = 0;
    for class in 0..CLASSES {
        slots += layout.slots(class);
    }
    slots
}
