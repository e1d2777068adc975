// A word as it is shown to a person: its start between quotes, and nothing in it that a terminal would take for a
// command.
#![tactic(auto)]

ghost use Rattle.std.specs.Prelude.{◌≡◌, ◌+◌, ◌≤◌, length, take, replicate};
ghost use Rattle.writing.specs.Overwrite.{overwrite};
ghost use Rattle.quoting.specs.Quoted.{shown_byte, shown_most, opened, quoted, quoted_room};

// How many bytes of a word are shown.
pub const SHOWN: usize = 24;

// Room for any word between quotes, and dots after them.
pub const ROOM: usize = 1 + SHOWN + 4;

// The front of an array; behind it are zeros. Its fields are public, since the clauses of `quoted` name them. (Fixed
// memory: a text of its own length would be on the heap.)
#[derive(Clone, Copy)]
pub struct Shown {
    pub text: [u8; ROOM],
    pub len: usize,
}

impl Shown {
    pub fn bytes(&self) -> &[u8]
        ensures place { result.ref_ptr ≡ self.entry.ref_ptr }
        ensures bytes { result.now ≡ take self.now.len self.now.text }
    {
        &self.text[..self.len.min(ROOM)]
    }

    // Puts a text behind the front.
    fn push(&mut self, more: &[u8])
        requires { self.old.len + length more.now ≤ quoted_room }
        ensures text { self.new.text ≡ overwrite self.old.text self.old.len more.now }
        ensures len { self.new.len ≡ self.old.len + length more.now }
    {
        let end = self.len + more.len();
        self.text[self.len..end].copy_from_slice(more);
        self.len = end;
    }
}

#[tactic(auto, unfolding(crate::specs::Quoted::shown_byte))]
fn shown_byte(byte: u8) -> u8
    ensures { result ≡ shown_byte byte }
{
    if byte.is_ascii_graphic() { byte } else { b'?' }
}

// The start of a word behind a quote.
fn open(word: &[u8]) -> Shown
    ensures { let text = opened word.now in
        (result.text ≡ overwrite (replicate quoted_room 0) 0 text) × (result.len ≡ length text)
        × (result.len ≤ 1 + shown_most) }
{
    let start = &word[..word.len().min(SHOWN)];
    let mut text = [0u8; ROOM];
    text[0] = b'"';
    for (i, byte) in start.iter().enumerate() {
        text[1 + i] = shown_byte(*byte);
    }
    Shown {
        text,
        len: 1 + start.len(),
    }
}

// The start of a word between quotes, with dots behind them where it is longer.
pub fn quoted(word: &[u8]) -> Shown
    ensures text { let text = quoted word.now in
        (result.text ≡ overwrite (replicate quoted_room 0) 0 text) × (result.len ≡ length text)
        × (result.len ≤ quoted_room) }
    ensures front { (take result.len result.text ≡ quoted word.now) × (length result.text ≡ quoted_room) }
{
    let mut shown = open(word);
    if word.len() <= SHOWN {
        shown.push(b"\"");
    } else {
        shown.push(b"\"...");
    }
    shown
}
