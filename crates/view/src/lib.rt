// What a read shows, and these bytes where they lie: nothing is copied.
#![tactic(auto)]

ghost use Rattle.std.specs.Prelude.{◌≡◌, length};
ghost use Rattle.answer.specs.Reply.{reply_of};
ghost use Rattle.view.specs.View.{view_bytes, address_of, place_within, within};
ghost use Rattle.view.specs.Looked.{answer_of, view_shown};

use answer::{Answer, Refusal};
use slices::between;

// Where bytes are shown from: an offset of the heap, or the front of the fallback page, which is lent beside it.
#[derive(Clone, Copy, Debug, PartialEq, Eq)]
pub enum Place {
    Heap(u32),
    Page,
}

// Bytes that are shown to the caller where they lie.
#[derive(Clone, Copy, Debug, PartialEq, Eq)]
pub struct View {
    pub place: Place,
    pub len: u32,
}

// The empty part of the page.
const NOTHING: View = View {
    place: Place::Page,
    len: 0,
};

// What a read comes to: bytes that are shown where they lie, or a refusal.
pub type Looked = Result<View, Refusal>;

// What a read answers: how many bytes it shows.
pub fn answer(looked: Looked) -> Answer
    ensures { reply_of result ≡ answer_of looked }
{
    looked.map(|view| view.len)
}

// The empty part of the page where it is refused.
pub fn shown(looked: Looked) -> View
    ensures { result ≡ view_shown looked }
{
    looked.unwrap_or(NOTHING)
}

// At an offset with so much room to the end of its live object, and with a page of this length.
pub fn within(offset: u32, room: usize, count: u32, page_len: usize) -> View
    ensures { result ≡ within offset room count page_len }
{
    if room == 0 {
        View {
            place: Place::Page,
            len: page_len.min(count as usize) as u32,
        }
    } else {
        View {
            place: Place::Heap(offset),
            len: room.min(count as usize) as u32,
        }
    }
}

// A part of the heap or of the page: where it starts, and its bytes.
pub fn bytes<'a>(view: View, heap: &'a [u8], page: &'a [u8]) -> &'a [u8]
    ensures { let place = place_within (length heap.now) view.place in
        (result.ref_ptr ≡ address_of place heap.entry.ref_ptr page.entry.ref_ptr)
        × (result.now ≡ view_bytes view heap.now page.now) }
{
    let len = view.len as usize;
    match view.place {
        Place::Heap(offset) => {
            let start = offset as usize;
            between(heap, start, start + len)
        }
        Place::Page => between(page, 0, len),
    }
}
