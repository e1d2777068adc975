// Copies into an object: the writer is lent the bytes from the offset to the object's end, and no others.
ghost use Rattle.rules.specs.Object.{copy};

use crate::lent::Heap;
use crate::object::is_past;
use answer::{Answer, Refusal};
use request::Kind;

impl Heap<'_> {
    ghost use Rattle.heap.specs.Carried.{IsCarried};

    #[tactic(auto, unfolding(rules::specs::Object::copy))]
    pub fn copy(&mut self, offset: u32, kind: Kind, source: &[u8]) -> Answer
        ensures { let h = self.old in
            IsCarried h self.new result (copy h.layout h.metadata.now offset kind source.now) }
    {
        let start = offset as usize;
        if is_past(self.layout, offset) {
            return Err(Refusal::OutOfRange);
        }
        // Not by `room`: with one more call of it a copy takes 270 instructions, not 252, and a read 231, not 211.
        let end = start + self.as_metadata().space(offset);
        Ok(copies::write(&mut self.bytes[start..end], source, kind) as u32)
    }
}
