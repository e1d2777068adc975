// Carrying a request out.
ghost use Rattle.request.specs.Parse.{parse};
ghost use Rattle.rules.specs.Serve.{lent_with, perform, act};

use crate::lent::Heap;
use answer::{Answer, Refusal};
use request::Request;

impl Heap<'_> {
    ghost use Rattle.heap.specs.Carried.{IsCarried};

    fn perform(&mut self, request: Request, source: &[u8], page: &[u8]) -> Answer
        ensures { let h = self.old in
            let beside = lent_with source.now page.now in
            IsCarried h self.new result (perform h.layout h.metadata.now beside request) }
    {
        match request {
            Request::Allocate(size) => self.allocate(size),
            Request::Free(offset) => self.free(offset),
            Request::Remaining(offset) => self.as_metadata().remaining(offset),
            Request::Copy(offset, kind) => self.copy(offset, kind, source),
            Request::Read(offset, count) => {
                view::answer(self.as_metadata().read(offset, count, page.len()))
            }
        }
    }

    // Reads a request whole before any other work on it.
    pub fn act(&mut self, request: &[u8], source: &[u8], page: &[u8]) -> Answer
        ensures { let h = self.old in
            let beside = lent_with source.now page.now in
            IsCarried h self.new result (act h.layout h.metadata.now beside (parse request.now)) }
    {
        let request = request::parse(request).ok_or(Refusal::MalformedRequest)?;
        self.perform(request, source, page)
    }
}
