// Looking for a byte.
#![tactic(auto)]

ghost use Rattle.std.specs.Prelude.{◌≡◌, ◌+◌, ◌≤◌, length};
ghost use Rattle.scan.specs.Bytes.{slice, index_of};

// The first place of a byte in the part from `from` up to `to`, as far as that is there; where the part ends, if it is
// nowhere in it: the clause `place` says so, and so it is no Option.
pub fn find(bytes: &[u8], from: usize, to: usize, byte: u8) -> usize
    ensures place { result ≡ from + index_of byte (slice from to bytes.now) }
    ensures bounded { from ≤ to → result ≤ to }
{
    let end = to.min(bytes.len());
    if end < from {
        return from;
    }
    match bytes[from..end].iter().position(|b| *b == byte) {
        Some(index) => from + index,
        None => end,
    }
}
