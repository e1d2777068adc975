// Finding words in a text.
ghost use Rattle.std.specs.Prelude.{◌≡◌, ◌≤◌, length};
ghost use Rattle.slices.specs.Part.{part_address};
ghost use Rattle.line.specs.Text.{is_blank, seek, next_word, word_bytes};

use super::Word;
use slices::between;

#[tactic(auto, unfolding(crate::specs::Text::is_blank))]
fn is_blank(byte: u8) -> bool
    ensures { result ≡ is_blank byte }
{
    matches!(byte, b'\t' | b' ')
}

// A text of which the words from a place on are left to read.
#[derive(Clone, Copy)]
pub struct Rest<'a> {
    pub text: &'a [u8],
    pub from: usize,
    ghost within: { from ≤ length text.now },
}

impl<'a> Rest<'a> {
    // The first place whose byte is a blank, or is none, as asked; the length where there is no such place: a word
    // ends there, as the definition `seek` has it. `position` on the rest takes half as many instructions again (238, not
    // 156, for the words of a line), `find` on the places a third.
    fn seek(self, blank: bool) -> usize
        ensures place { result ≡ seek self.entry.text.now self.entry.from blank }
        ensures within { (self.entry.from ≤ result) × (result ≤ length self.entry.text.now) }
    {
        for at in self.from..self.text.len() {
            if is_blank(self.text[at]) == blank {
                return at;
            }
        }
        self.text.len()
    }

    // Where the next word lies, and what is left after it.
    #[tactic(auto, unfolding(crate::specs::Text::next_word))]
    pub fn next(self) -> (Word, Rest<'a>)
        ensures place { result.0 ≡ next_word self.entry.text.now self.entry.from }
        ensures within { (result.0.start ≤ result.0.end) × (result.0.end ≤ length self.entry.text.now) }
        ensures rest { (result.1.text.now ≡ self.entry.text.now) × (result.1.from ≡ result.0.end) }
    {
        let text = self.text;
        let start = self.seek(false);
        let end = Rest { text, from: start }.seek(true);
        (Word { start, end }, Rest { text, from: end })
    }
}

// The bytes of a word, as far as they lie in the text.
pub fn word_bytes(text: &[u8], word: Word) -> &[u8]
    ensures { (result.ref_ptr ≡ part_address text.entry.ref_ptr (length text.now) word.start word.end)
        × (result.now ≡ word_bytes text.now word) }
{
    between(text, word.start, word.end)
}
