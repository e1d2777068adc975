// What a call answers: the value of what is served, or the refusal; and both in the numbers that callers see.
#![tactic(auto)]

ghost use Rattle.std.specs.Prelude.{◌≡◌};
ghost use Rattle.answer.specs.Reply.{number_of, reply_of};

// Each with its number.
#[derive(Clone, Copy, Debug, PartialEq, Eq)]
pub enum Refusal {
    UnusableSeed = 1,
    HeapLength = 2,
    MetadataLength = 3,
    MalformedRequest = 4,
    UnsupportedSize = 5,
    ClassTooSmall = 6,
    ClassAtCapacity = 7,
    OutOfRange = 8,
    NotASlotStart = 9,
    NotAllocated = 10,
    InvalidVote = 11,
    NoAgreement = 12,
    CorruptMetadata = 13,
    ListTooShort = 14,
    InvalidOutputs = 15,
}

pub type Answer = Result<u32, Refusal>;

// An answer in numbers, as C programs and printed lines have it: 0 and the value, or the refusal's number and 0.
#[derive(Clone, Copy, Debug, PartialEq, Eq)]
pub struct Reply {
    pub number: u32,
    pub value: u32,
}

impl From<Refusal> for u32 {
    ghost from_gives = { λ refusal number. number ≡ number_of refusal };

    fn from(refusal: Refusal) -> u32 {
        refusal as u32
    }
}

impl From<Answer> for Reply {
    ghost from_gives = { λ answer reply. reply ≡ reply_of answer };

    fn from(answer: Answer) -> Reply {
        match answer {
            Ok(value) => Reply { number: 0, value },
            Err(refusal) => Reply {
                number: u32::from(refusal),
                value: 0,
            },
        }
    }
}
