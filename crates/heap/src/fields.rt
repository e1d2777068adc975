// The metadata's fields before the bitmaps: words at their places. They are lent as a part whose length the compiler
// knows, so that it tests no place.
ghost use Rattle.std.specs.Prelude.{◌≡◌, ◌+◌, ◌≤◌, ◌<◌, length, replicate};
ghost use Rattle.words.specs.Word.{word_at, put_word};
ghost use Rattle.geometry.specs.Layout.{classes, header};
ghost use Rattle.metadata.specs.Metadata.{generator_of, with_generator, count_at, count_of, with_count};
ghost use Rattle.metadata.specs.Metadata.{canary_of, with_canary};

use crate::lent::{Heap, Metadata};
use geometry::{CANARY, COUNTS, HEADER};
use mwc::Generator;

const Z: usize = 0;

const W: usize = 4;

// Where a class's live count stands.
fn count_at(class: usize) -> usize
    requires { class < classes }
    ensures { result ≡ count_at class }
{
    COUNTS + 4 * class
}

impl Metadata<'_> {
    #[tactic(auto, using(judge::proofs::Admitting::has_fields))]
    fn word(self, at: usize) -> u32
        requires { at + 4 ≤ header }
        ensures { result ≡ word_at self.entry.bytes.now at }
    {
        words::get(&self.bytes[0..HEADER], at)
    }

    pub fn generator(self) -> Generator
        ensures { result ≡ generator_of self.entry.bytes.now }
    {
        Generator {
            z: self.word(Z),
            w: self.word(W),
        }
    }

    pub fn count(self, class: usize) -> u32
        requires { class < classes }
        ensures { result ≡ count_of class self.entry.bytes.now }
    {
        self.word(count_at(class))
    }

    pub fn canary(self) -> u32
        ensures { result ≡ canary_of self.entry.bytes.now }
    {
        self.word(CANARY)
    }
}

impl Heap<'_> {
    ghost use Rattle.heap.specs.Carried.{IsRewritten};

    #[tactic(auto, using(judge::proofs::Admitting::has_fields))]
    fn store_word(&mut self, at: usize, n: u32)
        requires { at + 4 ≤ header }
        ensures { IsRewritten self.old self.new (put_word self.old.metadata.now at n) }
    {
        words::put(&mut self.metadata[0..HEADER], at, n);
    }

    pub fn store(&mut self, generator: Generator)
        ensures { IsRewritten self.old self.new (with_generator self.old.metadata.now generator) }
    {
        self.store_word(Z, generator.z);
        self.store_word(W, generator.w);
    }

    pub fn store_count(&mut self, class: usize, count: u32)
        requires { class < classes }
        ensures { IsRewritten self.old self.new (with_count self.old.metadata.now class count) }
    {
        self.store_word(count_at(class), count);
    }

    // Zeros throughout, but for the generator and the canary.
    pub fn reset(&mut self, generator: Generator, canary: u32)
        ensures { let zeros = replicate (length self.old.metadata.now) 0 in
            IsRewritten self.old self.new (with_canary (with_generator zeros generator) canary) }
    {
        copies::clear(self.metadata);
        self.store(generator);
        self.store_word(CANARY, canary);
    }
}
