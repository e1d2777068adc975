// Parts of slices.
#![tactic(auto)]

ghost use Rattle.std.specs.Prelude.{◌≡◌, ◌-◌, length, take, drop};
ghost use Rattle.slices.specs.Part.{part_address};

// The part from a start to an end, as far as it lies in the slice: where it starts, and its bytes.
pub fn between(slice: &[u8], start: usize, end: usize) -> &[u8]
    ensures { (result.ref_ptr ≡ part_address slice.entry.ref_ptr (length slice.now) start end)
        × (result.now ≡ take (end - start) (drop start slice.now)) }
{
    let to = end.min(slice.len());
    &slice[start.min(to)..to]
}
