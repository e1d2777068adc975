// What is said of a bad line, put at a place.
#![tactic(auto)]

ghost use Rattle.std.specs.Prelude.{◌+◌, ◌-◌, ◌≡◌, ◌≤◌, length};
ghost use Rattle.decimal.specs.Decimal.{width, decimal};
ghost use Rattle.messages.specs.Put.{Put, IsPut};
ghost use Rattle.messages.specs.Message.{found, said, expected, bad_message, message_within};
ghost use Rattle.messages.specs.Message.{expected_room, found_room, message_room};

use line::{BadLine, Read};

// The longest text of what was expected, and of what is found: a word between quotes, and a line end.
const EXPECTED: usize = 68;

const FOUND: usize = quoting::ROOM + 1;

// Room for any message: `line `, its number, what was expected and what is found.
pub const ROOM: usize = 5 + decimal::WIDTH + EXPECTED + FOUND;

// A buffer, and the place in it where the next text is put. Not `Display`: a formatter would stand between it and the
// buffer. Texts are bytes, since a word of a line may be no text.
#[derive(Drop)]
struct Writer<'a> {
    out: &'a mut [u8],
    at: usize,
}

impl<'a> Writer<'a> {
    fn text(&mut self, text: &[u8])
        requires { self.old.at + length text.now ≤ length self.old.out.now }
        ensures put { IsPut self.old self.new text.now }
    {
        let end = self.at + text.len();
        self.out[self.at..end].copy_from_slice(text);
        self.at = end;
    }

    fn number(&mut self, n: u64)
        requires { self.old.at + width ≤ length self.old.out.now }
        ensures put { IsPut self.old self.new (decimal n) }
        ensures within { self.new.at ≤ self.old.at + width }
    {
        self.at = decimal::put(self.out, self.at, n);
    }

    // The start of a word between quotes, or that the line has ended.
    #[tactic(auto, using(crate::proofs::Putting::found_none), unfolding(alike::specs::Text::bytes))]
    fn found(&mut self, word: &[u8])
        requires { self.old.at + found_room ≤ length self.old.out.now }
        ensures put { IsPut self.old self.new (found word.now) }
        ensures within { self.new.at ≤ self.old.at + found_room }
    {
        if word.is_empty() {
            self.text(b"the end of the line\n");
            return;
        }
        let shown = quoting::quoted(word);
        self.text(shown.bytes());
        self.text(b"\n");
    }

    // What a bad line should have been, up to what is found.
    #[tactic(auto, unfolding(crate::specs::Message::expected, alike::specs::Text::bytes))]
    fn expected(&mut self, bad: BadLine)
        requires { self.old.at + expected_room ≤ length self.old.out.now }
        ensures put { IsPut self.old self.new (expected bad) }
        ensures within { self.new.at ≤ self.old.at + expected_room }
    {
        match bad {
            BadLine::Operation(_) => {
                self.text(b": expected place, free, measure, copy, text, counted or read, found ");
            }
            BadLine::Number(_) => self.text(b": expected a number from 0 to 4294967295, found "),
            BadLine::TrailingText(_) => self.text(b": expected nothing after the numbers, found "),
            BadLine::TooLong => self.text(b": expected at most 255 bytes, found more\n"),
        }
    }

    // A line's number, and what it should have been.
    fn say(&mut self, number: u64, bad: BadLine)
        requires { self.old.at + message_room ≤ length self.old.out.now }
        ensures put { IsPut self.old self.new (said number (expected bad)) }
        ensures within { self.new.at + found_room ≤ self.old.at + message_room }
    {
        self.text(b"line ");
        self.number(number);
        self.expected(bad);
    }

    // What a bad line should have been and what it is.
    fn bad(&mut self, number: u64, line: &[u8], bad: BadLine)
        requires { self.old.at + message_room ≤ length self.old.out.now }
        ensures put { IsPut self.old self.new (bad_message number line.now bad) }
        ensures within { self.new.at ≤ self.old.at + message_room }
    {
        self.say(number, bad);
        match bad {
            BadLine::Operation(word) | BadLine::Number(word) | BadLine::TrailingText(word) => {
                self.found(line::word_bytes(line, word));
            }
            BadLine::TooLong => {}
        }
    }
}

// Writes at a place what a bad line should have been and what it is, of a good line nothing, and answers the place
// after it. Where there may be no room for a message, nothing is written. Buffer and place are two, as its clauses name
// them.
pub fn put(line: &[u8], read: Read, number: u64, out: &mut [u8], at: usize) -> usize
    ensures within { result ≤ at + message_room }
    ensures put { let text = message_within (length out.old - at) number line.now read in
        Put out.old at text result out.new }
{
    if out.len().saturating_sub(at) < ROOM {
        return at;
    }
    let Err(bad) = read else {
        return at;
    };
    let mut writer = Writer { out, at };
    writer.bad(number, line, bad);
    writer.at
}
