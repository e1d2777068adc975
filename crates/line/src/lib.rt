// Lines of text that ask for requests.
#![tactic(auto)]

mod finding;
mod number;

ghost use Rattle.std.specs.Prelude.{◌≡◌, ◌≤◌, length};
ghost use Rattle.line.specs.Text.{trimmed_end};
ghost use Rattle.line.specs.Line.{operation_of, number_at, request, counted, operands};
ghost use Rattle.line.specs.Line.{statement, read_text, read_line};

use alike::same;
use finding::Rest;
pub use finding::word_bytes;
use request::has_count;

// Where a word lies in its line.
#[derive(Clone, Copy, PartialEq, Eq, Debug)]
pub struct Word {
    pub start: usize,
    pub end: usize,
}

// The request that a line asks for. Its operation is a number, since `request::encode` takes any and the definition
// `names` counts by it.
#[derive(Clone, Copy, PartialEq, Eq, Debug)]
pub struct Asked {
    pub operation: u32,
    pub argument: u32,
    pub count: u32,
}

// What is wrong with a line. A word stands where another was expected, and is empty where none is left.
#[derive(Clone, Copy, PartialEq, Eq, Debug)]
pub enum BadLine {
    Operation(Word),
    Number(Word),
    TrailingText(Word),
    TooLong,
}

// What a line asks for, which may be nothing.
pub type Read = Result<Option<Asked>, BadLine>;

// How many bytes a line may have, its end not counted.
pub const LONGEST: usize = 255;

// The operation that a word names, if it names one. Name by name: a table searched by `position` takes a fifth more
// instructions for a line.
#[tactic(auto, unfolding(crate::specs::Line::operation_of, alike::specs::Text::bytes))]
fn operation_of(word: &[u8]) -> Option<u32>
    ensures { result ≡ operation_of word.now }
{
    match word {
        _ if same(word, b"place") => Some(0),
        _ if same(word, b"free") => Some(1),
        _ if same(word, b"measure") => Some(2),
        _ if same(word, b"copy") => Some(3),
        _ if same(word, b"text") => Some(4),
        _ if same(word, b"counted") => Some(5),
        _ if same(word, b"read") => Some(6),
        _ => None,
    }
}

// The number that a word of a text spells.
fn number_at(text: &[u8], word: Word) -> Result<u32, BadLine>
    ensures { result ≡ number_at text.now word }
{
    number::of(word_bytes(text, word)).ok_or(BadLine::Number(word))
}

impl Rest<'_> {
    // The request, where no word is left.
    #[tactic(auto, unfolding(crate::specs::Line::request))]
    fn request(self, operation: u32, argument: u32, count: u32) -> Result<Asked, BadLine>
        ensures { result ≡ request self.entry.text.now self.entry.from operation argument count }
    {
        let (word, _) = self.next();
        if word.start != self.text.len() {
            return Err(BadLine::TrailingText(word));
        }
        Ok(Asked {
            operation,
            argument,
            count,
        })
    }

    // The second number.
    #[tactic(auto, unfolding(crate::specs::Line::counted))]
    fn counted(self, operation: u32, argument: u32) -> Result<Asked, BadLine>
        ensures { result ≡ counted self.entry.text.now self.entry.from operation argument }
    {
        let (word, rest) = self.next();
        let count = number_at(self.text, word)?;
        rest.request(operation, argument, count)
    }

    // The numbers after the operation's name.
    #[tactic(auto, unfolding(crate::specs::Line::operands))]
    fn operands(self, operation: u32) -> Result<Asked, BadLine>
        ensures { result ≡ operands self.entry.text.now self.entry.from operation }
    {
        let (word, rest) = self.next();
        let argument = number_at(self.text, word)?;
        if has_count(operation) {
            return rest.counted(operation, argument);
        }
        rest.request(operation, argument, 0)
    }
}

// A line without its comment.
#[tactic(auto, unfolding(crate::specs::Line::statement))]
fn statement(text: &[u8]) -> Read
    ensures { result ≡ statement text.now }
{
    let (word, rest) = Rest { text, from: 0 }.next();
    if word.start == text.len() {
        return Ok(None);
    }
    let operation = operation_of(word_bytes(text, word)).ok_or(BadLine::Operation(word))?;
    let asked = rest.operands(operation)?;
    Ok(Some(asked))
}

// Where a line ends without the carriage return that may stand before its line feed. A place, as the definition
// `trimmed_end` has it, and not what `strip_suffix` gives.
#[tactic(auto, unfolding(crate::specs::Text::trimmed_end))]
fn trimmed_end(line: &[u8]) -> usize
    ensures { (result ≡ trimmed_end line.now) × (result ≤ length line.now) }
{
    match line.last() {
        Some(b'\r') => line.len() - 1,
        _ => line.len(),
    }
}

#[tactic(auto, using(crate::proofs::Reading::long_text, crate::proofs::Reading::short_text))]
fn read_text(line: &[u8]) -> Read
    ensures { result ≡ read_text line.now }
{
    if LONGEST < line.len() {
        return Err(BadLine::TooLong);
    }
    let end = scan::find(line, 0, line.len(), b'#');
    statement(&line[0..end])
}

// What any line asks for; it is given without its line feed.
pub fn read(line: &[u8]) -> Read
    ensures { result ≡ read_line line.now }
{
    let end = trimmed_end(line);
    read_text(&line[0..end])
}
