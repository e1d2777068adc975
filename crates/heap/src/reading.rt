// Reading an object where it lies.
ghost use Rattle.std.specs.Prelude.{◌≡◌};
ghost use Rattle.rules.specs.Outcome.{reply, view_of};
ghost use Rattle.rules.specs.Read.{read};
ghost use Rattle.view.specs.Looked.{answer_of, view_shown};

use crate::lent::Metadata;
use view::Looked;

impl Metadata<'_> {
    #[tactic(auto, unfolding(rules::specs::Read::read))]
    pub fn read(self, offset: u32, count: u32, page_len: usize) -> Looked
        ensures { let outcome = read self.entry.layout self.entry.bytes.now offset count page_len in
            (answer_of result ≡ reply self.entry.layout outcome) × (view_shown result ≡ view_of outcome) }
    {
        let room = self.room(offset)?;
        Ok(view::within(offset, room, count, page_len))
    }
}
