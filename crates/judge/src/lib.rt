// What is judged before anything else: the lengths of a heap and its metadata, and before a request the live counts.
#![tactic(auto)]

ghost use Rattle.std.specs.Prelude.{◌≡◌, ◌≤◌, length};
ghost use Rattle.geometry.specs.Layout.{header};
ghost use Rattle.judge.specs.Judge.{lengths, any_over, admit};

use answer::Refusal;
use geometry::{CLASSES, COUNTS, HEADER, Layout, Plan};

// The layout that the lengths of a heap and its metadata come to.
#[tactic(auto, unfolding(crate::specs::Judge::lengths))]
pub fn lengths(heap_len: usize, metadata_len: usize) -> Result<Layout, Refusal>
    ensures { result ≡ lengths heap_len metadata_len }
{
    let plan = Plan::of(heap_len);
    let layout = plan.layout;
    if layout.region == 0 {
        return Err(Refusal::HeapLength);
    }
    if metadata_len != plan.metadata {
        return Err(Refusal::MetadataLength);
    }
    Ok(layout)
}

// Whether a class counts more live objects than half of its slots. The fields are lent as a part whose length the
// compiler knows, so that it tests no place.
#[tactic(auto, using(crate::proofs::Admitting::over_none))]
fn any_over(metadata: &[u8], layout: Layout) -> bool
    requires { header ≤ length metadata.now }
    ensures { result ≡ any_over layout metadata.now }
{
    for class in 0..CLASSES {
        let count = words::get(&metadata[0..HEADER], COUNTS + 4 * class);
        if layout.slots(class) / 2 < count as usize {
            return true;
        }
    }
    false
}

// What requests and inspections go by.
#[tactic(auto, unfolding(crate::specs::Judge::admit))]
pub fn admit(heap_len: usize, metadata: &[u8]) -> Result<Layout, Refusal>
    ensures { result ≡ admit heap_len metadata.now }
{
    let layout = lengths(heap_len, metadata.len())?;
    if any_over(metadata, layout) {
        return Err(Refusal::CorruptMetadata);
    }
    Ok(layout)
}
