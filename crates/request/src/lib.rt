// Requests: sixteen bytes, read whole, or found malformed.
#![tactic(auto)]

ghost use Rattle.std.specs.Prelude.{◌≡◌};
ghost use Rattle.request.specs.Parse.{operation, has_count, count_allowed, parse, request_bytes};

// The bytes of a request: four words.
pub const SIZE: usize = 16;

// What a copy writes: the source; the source through its first zero byte; or the source before it, and zeros up to a
// count.
#[derive(Clone, Copy, Debug, PartialEq, Eq)]
pub enum Kind {
    Bytes,
    String,
    Padded(u32),
}

#[derive(Clone, Copy, Debug, PartialEq, Eq)]
pub enum Request {
    Allocate(u32),
    Free(u32),
    Remaining(u32),
    Copy(u32, Kind),
    Read(u32, u32),
}

// The operation with a number, which is the number that a request has, and the place in the definition `operations`.
fn of_operation(code: u32, argument: u32, count: u32) -> Option<Request>
    ensures { result ≡ operation code argument count }
{
    match code {
        0 => Some(Request::Allocate(argument)),
        1 => Some(Request::Free(argument)),
        2 => Some(Request::Remaining(argument)),
        3 => Some(Request::Copy(argument, Kind::Bytes)),
        4 => Some(Request::Copy(argument, Kind::String)),
        5 => Some(Request::Copy(argument, Kind::Padded(count))),
        6 => Some(Request::Read(argument, count)),
        _ => None,
    }
}

// Whether an operation has a count.
pub fn has_count(code: u32) -> bool
    ensures { result ≡ has_count code }
{
    code == 5 || code == 6
}

fn count_allowed(code: u32, count: u32) -> bool
    ensures { result ≡ count_allowed code count }
{
    count == 0 || has_count(code)
}

// The request that bytes are, if they are one.
#[tactic(auto, unfolding(crate::specs::Parse::parse))]
pub fn parse(bytes: &[u8]) -> Option<Request>
    ensures { result ≡ parse bytes.now }
{
    if bytes.len() != SIZE || words::get(bytes, 12) != 0 {
        return None;
    }
    let code = words::get(bytes, 0);
    let count = words::get(bytes, 8);
    if !count_allowed(code, count) {
        return None;
    }
    of_operation(code, words::get(bytes, 4), count)
}

// The bytes of a request.
pub fn encode(code: u32, argument: u32, count: u32) -> [u8; SIZE]
    ensures { result ≡ request_bytes code argument count }
{
    let mut bytes = [0u8; SIZE];
    words::put(&mut bytes, 0, code);
    words::put(&mut bytes, 4, argument);
    words::put(&mut bytes, 8, count);
    bytes
}
