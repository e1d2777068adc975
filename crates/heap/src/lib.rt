// The heap: opening, seven operations and one entry point for requests, and reads with plain arguments.
#![tactic(auto)]

mod allocate;
mod copy;
mod fields;
mod lent;
mod object;
mod perform;
mod reading;
mod release;

ghost use Rattle.std.specs.Prelude.{◌≡◌, length};
ghost use Rattle.answer.specs.Reply.{reply_of};
ghost use Rattle.view.specs.View.{view_bytes, address_of};
ghost use Rattle.rules.specs.Open.{setup};
ghost use Rattle.rules.specs.Serve.{lent_with};
ghost use Rattle.rules.specs.Call.{serve, reading, opening};
ghost use Rattle.view.specs.Looked.{answer_of, view_shown};

use crate::lent::{Heap, Metadata};
use answer::{Answer, Refusal};
use mwc::Generator;
use view::Looked;

// Writes fresh metadata for a heap of this length, and the canary into every slot. The arguments come apart,
// as C passes them.
#[tactic(auto, unfolding(rules::specs::Call::opening))]
pub fn open(heap: &mut [u8], metadata: &mut [u8], z: u32, w: u32, canary: u32) -> Answer
    ensures { let called = opening (length heap.old) metadata.old (setup z w canary) in
        (reply_of result ≡ called.answer) × (metadata.new ≡ called.metadata)
        × (heap.new ≡ called.heap heap.old) }
{
    let layout = judge::lengths(heap.len(), metadata.len())?;
    let seeds = Generator { z, w };
    if seeds.is_unusable() {
        return Err(Refusal::UnusableSeed);
    }
    let mut lent = Heap {
        bytes: &mut *heap,
        metadata,
        layout,
    };
    lent.reset(seeds, canary);
    canary::fill_slots(heap, layout, canary);
    Ok(0)
}

// Serves a request of any bytes on any heap and any metadata. All of it comes apart here and above, as C passes it.
#[tactic(auto, unfolding(rules::specs::Call::serving))]
pub fn serve(
    heap: &mut [u8],
    metadata: &mut [u8],
    request: &[u8],
    source: &[u8],
    page: &[u8],
) -> Answer
    ensures { let beside = lent_with source.now page.now in
        let called = serve (length heap.old) metadata.old request.now beside in
        (reply_of result ≡ called.answer) × (metadata.new ≡ called.metadata)
        × (heap.new ≡ called.heap heap.old) }
{
    let layout = judge::admit(heap.len(), metadata)?;
    let mut lent = Heap {
        bytes: heap,
        metadata,
        layout,
    };
    lent.act(request, source, page)
}

// A read with plain arguments, which come apart as C passes them.
#[tactic(auto, unfolding(rules::specs::Call::serving))]
pub fn look(heap: &[u8], metadata: &[u8], offset: u32, count: u32, page: &[u8]) -> Looked
    ensures { let called = reading (length heap.now) metadata.now offset count page.now in
        (answer_of result ≡ called.answer) × (view_shown result ≡ called.view) }
{
    let layout = judge::admit(heap.len(), metadata)?;
    let lent = Metadata {
        bytes: metadata,
        layout,
    };
    lent.read(offset, count, page.len())
}

// What a read shows: a part of the heap, or of the page, whose empty part stands for a refusal. The arguments come
// apart, as C passes them.
pub fn read<'a>(
    heap: &'a [u8],
    metadata: &[u8],
    offset: u32,
    count: u32,
    page: &'a [u8],
) -> &'a [u8]
    ensures { let called = reading (length heap.now) metadata.now offset count page.now in
        (result.ref_ptr ≡ address_of called.view.place heap.entry.ref_ptr page.entry.ref_ptr)
        × (result.now ≡ view_bytes called.view heap.now page.now)
        × (length result.now ≡ called.answer.value) }
{
    let looked = look(heap, metadata, offset, count, page);
    view::bytes(view::shown(looked), heap, page)
}
