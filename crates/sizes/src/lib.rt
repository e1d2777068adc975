// The usual slot sizes, and the class of a size among them, which is looked up in a table.
#![tactic(auto)]

mod table;

ghost use Rattle.std.specs.Prelude.{◌≡◌, ◌+◌, ◌*◌, ◌%◌, ◌<◌, ◌≤◌};
ghost use Rattle.search.specs.Tabulate.{tabulate};
ghost use Rattle.sizes.specs.Sizes.{usual_size, usual_class};

use table::{CLASS_OF_STEP, STEPS};

pub const CLASSES: usize = 12;

// The steps of eight bytes up to which a size is small, medium or large.
const SMALL: usize = 32;

const MEDIUM: usize = 256;

const LARGE: usize = 1024;

// The bytes of a slot; 0 past the last class, as the definition `usual_size` has it, and so no Option.
pub fn usual_size(class: usize) -> usize
    ensures { result ≡ usual_size class }
{
    if class < CLASSES { 8 << class } else { 0 }
}

// The classes of one step of eight bytes, of two, and so on up to the longest slot.
fn entries() -> [u8; STEPS]
    ensures { result ≡ tabulate (λ i. usual_class (8 * (i + 1))) 0 2048 }
{
    CLASS_OF_STEP
}

// The class of a step below a reach. The compiler makes a constant array anew where it is read, as much of it as the
// index can reach. So sizes up to 256, 2,048 and 8,192 bytes have a look of their own, at the front of the table alone.
#[tactic(auto, using(crate::proofs::Steps::entry_at))]
fn entry_below<const REACH: usize>(step: usize) -> u8
    requires { (0 < REACH) × (REACH ≤ 2048) }
    ensures { result ≡ usual_class (8 * (step % REACH + 1)) }
{
    let table = entries();
    table[step % REACH]
}

// The class of step + 1 steps of eight bytes.
fn entry(step: usize) -> u8
    requires { step < 2048 }
    ensures { result ≡ usual_class (8 * (step + 1)) }
{
    if step < SMALL {
        return entry_below::<SMALL>(step);
    }
    if step < MEDIUM {
        return entry_below::<MEDIUM>(step);
    }
    if step < LARGE {
        return entry_below::<LARGE>(step);
    }
    entry_below::<STEPS>(step)
}

// The class of a size; CLASSES where no slot is large enough, as the definition `usual_class` has it, and so no Option.
// Slots are whole steps of eight bytes, so a size is rounded up to them. Nothing has no step of its own.
#[tactic(auto, using(crate::proofs::Sizes::usual_class_none, crate::proofs::Steps::class_nothing))]
pub fn usual_class(size: u32) -> usize
    ensures { result ≡ usual_class size }
{
    if size == 0 {
        return 0;
    }
    let step = (size - 1) as usize / 8;
    if step < STEPS {
        entry(step) as usize
    } else {
        CLASSES
    }
}
