// The C interface (include/poheldu.h): a buffer passes as a pointer and a length. Each function only turns answers into
// numbers.
#![tactic(auto)]

mod slots;

ghost use Rattle.std.specs.Prelude.{◌≡◌, length};
ghost use Rattle.answer.specs.Reply.{reply_of};
ghost use Rattle.rules.specs.Open.{setup};
ghost use Rattle.rules.specs.Serve.{lent_with};
ghost use Rattle.rules.specs.Call.{serve, reading, opening};
ghost use Rattle.rules.specs.Inspect.{inspection};
ghost use Rattle.vote.specs.Decide.{decide, tally, output_after};
ghost use Rattle.whole.specs.Whole.{whole};
ghost use Rattle.capi.specs.Numbers.{reply_in, tally_in, read_part, metadata_for, interface};
ghost use Rattle.capi.specs.Slots.{nth_slot, find_slot, count_slots, stored_pattern};

use answer::{Answer, Reply};
use geometry::{CANARY, Plan};
use view::Place;
use vote::Tally;

#[repr(C)]
#[derive(Clone, Copy)]
pub struct PohelduAnswer {
    pub number: u32,
    pub value: u32,
}

#[repr(C)]
#[derive(Clone, Copy)]
pub struct PohelduVerdict {
    pub number: u32,
    pub mask: u32,
    pub value: u32,
    pub replica: u32,
}

#[repr(C)]
#[derive(Clone, Copy)]
pub struct PohelduPart {
    pub number: u32,
    pub value: u32,
    pub of_page: u32,
    pub start: u32,
}

// A slot, live or clear: its class and its number there, and where its bytes lie.
#[repr(C)]
#[derive(Clone, Copy, Default)]
pub struct PohelduSlot {
    pub size_class: u32,
    pub number: u32,
    pub start: u32,
    pub len: u32,
}

impl From<Answer> for PohelduAnswer {
    ghost from_gives = { λ answer numbers. reply_in numbers ≡ reply_of answer };

    fn from(answer: Answer) -> PohelduAnswer {
        let Reply { number, value } = Reply::from(answer);
        PohelduAnswer { number, value }
    }
}

#[unsafe(no_mangle)]
pub extern "C" fn poheldu_open(
    heap: &mut [u8],
    metadata: &mut [u8],
    z: u32,
    w: u32,
    pattern: u32,
) -> PohelduAnswer
    ensures { let called = opening (length heap.old) metadata.old (setup z w pattern) in
        (reply_in result ≡ called.answer) × (metadata.new ≡ called.metadata)
        × (heap.new ≡ called.heap heap.old) }
{
    heap::open(heap, metadata, z, w, pattern).into()
}

#[unsafe(no_mangle)]
pub extern "C" fn poheldu_serve(
    heap: &mut [u8],
    metadata: &mut [u8],
    request: &[u8],
    source: &[u8],
    page: &[u8],
) -> PohelduAnswer
    ensures { let beside = lent_with source.now page.now in
        let called = serve (length heap.old) metadata.old request.now beside in
        (reply_in result ≡ called.answer) × (metadata.new ≡ called.metadata)
        × (heap.new ≡ called.heap heap.old) }
{
    heap::serve(heap, metadata, request, source, page).into()
}

#[unsafe(no_mangle)]
pub extern "C" fn poheldu_read(
    heap: &[u8],
    metadata: &[u8],
    offset: u32,
    count: u32,
    page: &[u8],
) -> PohelduPart
    ensures { let called = reading (length heap.now) metadata.now offset count page.now in
        result ≡ read_part called }
{
    let looked = heap::look(heap, metadata, offset, count, page);
    let Reply { number, value } = Reply::from(view::answer(looked));
    let (of_page, start) = match view::shown(looked).place {
        Place::Heap(start) => (0, start),
        Place::Page => (1, 0),
    };
    PohelduPart {
        number,
        value,
        of_page,
        start,
    }
}

#[unsafe(no_mangle)]
pub extern "C" fn poheldu_inspect(heap: &[u8], metadata: &[u8], list: &mut [u32]) -> PohelduAnswer
    ensures { let inspected = inspection heap.now metadata.now list.old in
        (reply_in result ≡ inspected.answer) × (list.new ≡ inspected.list) }
{
    inspect::inspect(heap, metadata, list).into()
}

impl From<Tally> for PohelduVerdict {
    ghost from_gives = { λ tally numbers. tally_in numbers ≡ tally };

    fn from(tally: Tally) -> PohelduVerdict {
        PohelduVerdict {
            number: tally.number,
            mask: tally.mask,
            value: tally.value,
            replica: tally.replica,
        }
    }
}

#[unsafe(no_mangle)]
pub extern "C" fn poheldu_vote(
    blocks: &[u8],
    replicas: usize,
    block_len: usize,
    output: &mut [u8],
) -> PohelduVerdict
    ensures { let d = decide blocks.now replicas block_len (length output.old) in
        (tally_in result ≡ tally d) × (output.new ≡ output_after d output.old) }
{
    Tally::from(vote::vote(blocks, replicas, block_len, output)).into()
}

#[unsafe(no_mangle)]
pub extern "C" fn poheldu_vote_whole(
    outputs: &[u8],
    replicas: usize,
    len: usize,
    output: &mut [u8],
) -> PohelduVerdict
    ensures { let voted = whole outputs.now replicas len output.old in
        (tally_in result ≡ voted.answer) × (output.new ≡ voted.output) }
{
    whole::tally(whole::vote(outputs, replicas, len, output)).into()
}

// 0 where no heap has this length.
#[unsafe(no_mangle)]
pub extern "C" fn poheldu_metadata_length(heap_len: usize) -> usize
    ensures { result ≡ metadata_for heap_len }
{
    let plan = Plan::of(heap_len);
    if plan.layout.region == 0 {
        return 0;
    }
    plan.metadata
}

// ---- What lies where: lengths are judged as a request's are, and all is 0 where they are refused.
// A `match`, since `numbered` in a closure of `map_or` did not prove that the layout fits.

// The slot of a class with a number.
#[unsafe(no_mangle)]
pub extern "C" fn poheldu_nth_slot(
    heap_len: usize,
    metadata: &[u8],
    size_class: u32,
    number: u32,
) -> PohelduSlot
    ensures { result ≡ nth_slot heap_len metadata.now size_class number }
{
    match judge::lengths(heap_len, metadata.len()) {
        Err(_) => PohelduSlot::default(),
        Ok(layout) => slots::numbered(layout, size_class as usize, number as usize),
    }
}

// The slot that an offset lies in.
#[unsafe(no_mangle)]
pub extern "C" fn poheldu_find_slot(heap_len: usize, metadata: &[u8], offset: u32) -> PohelduSlot
    ensures { result ≡ find_slot heap_len metadata.now offset }
{
    match judge::lengths(heap_len, metadata.len()) {
        Err(_) => PohelduSlot::default(),
        Ok(layout) => {
            let at = layout.locate(offset);
            slots::numbered(layout, at.class, at.slot)
        }
    }
}

// How many slots there are in all classes.
#[unsafe(no_mangle)]
pub extern "C" fn poheldu_count_slots(heap_len: usize, metadata: &[u8]) -> usize
    ensures { result ≡ count_slots heap_len metadata.now }
{
    match judge::lengths(heap_len, metadata.len()) {
        Err(_) => 0,
        Ok(layout) => slots::all(layout),
    }
}

// The pattern, which the rules call a canary.
#[unsafe(no_mangle)]
pub extern "C" fn poheldu_stored_pattern(heap_len: usize, metadata: &[u8]) -> u32
    ensures { result ≡ stored_pattern heap_len metadata.now }
{
    match judge::lengths(heap_len, metadata.len()) {
        Err(_) => 0,
        Ok(_) => words::get(metadata, CANARY),
    }
}

// The interface's number, which its name has too: an object compiled against another refers to a name that is not here.
#[unsafe(no_mangle)]
pub extern "C" fn poheldu_interface_1() -> u32
    ensures { result ≡ interface }
{
    1
}
