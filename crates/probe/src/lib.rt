// Choosing a slot: draws, and then the next clear slot.
#![tactic(auto)]

ghost use Rattle.std.specs.Prelude.{◌≡◌};
ghost use Rattle.probe.specs.Probe.{draws, probe};

use mwc::Generator;
use numbers::power_remainder;

const DRAWS: usize = 32;

// A slot, and the generator after the draws that led to it.
#[derive(Clone, Copy)]
pub struct Found {
    pub slot: usize,
    pub generator: Generator,
}

// The slot that the draws choose, or the next clear one above the last slot tested where all of them meet set slots;
// `slots` where all are set, as the definition `probe` has it, and so no Option.
pub fn find(bitmap: &[u8], slots: usize, start: Generator) -> Found
    ensures { result ≡ probe bitmap.now slots start 0 draws }
{
    let mut generator = start;
    let mut last: usize = 0;
    for _ in 0..DRAWS {
        generator = generator.advance();
        last = power_remainder(generator.draw() as usize, slots);
        if !bitmap::is_set(bitmap, slots, last) {
            return Found {
                slot: last,
                generator,
            };
        }
    }
    Found {
        slot: bitmap::next_clear(bitmap, slots, last),
        generator,
    }
}
