// The kinds of messages and of a monitor's answers, and the bytes that stand for them.
ghost use Rattle.std.specs.Prelude.{◌≡◌};
ghost use Rattle.wire.specs.Kinds.{IsAnswerKindOf, IsKindOf, answer_number, kind_number};

use crate::refusal::Refusal;

#[derive(Clone, Copy, PartialEq, Eq, Debug)]
pub enum Kind {
    Certificate = 1,
    Sct = 2,
    TreeHead = 3,
    RevocationList = 4,
    Order = 5,
    Challenge = 6,
    Published = 7,
    Submit = 8,
    GetHead = 9,
    GetInclusion = 10,
    GetConsistency = 11,
    GetEntries = 12,
    Revoke = 13,
    GetList = 14,
    Bring = 15,
    Present = 16,
    Inclusion = 26,
    Consistency = 27,
    Entries = 28,
    Answer = 29,
    Accepted = 30,
    Refused = 31,
}

impl Kind {
    // The byte that stands for the kind.
    pub fn number(self) -> u8
        ensures { result ≡ kind_number self }
    {
        self as u8
    }
}

impl TryFrom<u8> for Kind {
    type Error = Refusal;

    ghost try_from_gives = { IsKindOf };

    fn try_from(number: u8) -> Result<Kind, Refusal> {
        match number {
            1 => Ok(Kind::Certificate),
            2 => Ok(Kind::Sct),
            3 => Ok(Kind::TreeHead),
            4 => Ok(Kind::RevocationList),
            5 => Ok(Kind::Order),
            6 => Ok(Kind::Challenge),
            7 => Ok(Kind::Published),
            8 => Ok(Kind::Submit),
            9 => Ok(Kind::GetHead),
            10 => Ok(Kind::GetInclusion),
            11 => Ok(Kind::GetConsistency),
            12 => Ok(Kind::GetEntries),
            13 => Ok(Kind::Revoke),
            14 => Ok(Kind::GetList),
            15 => Ok(Kind::Bring),
            16 => Ok(Kind::Present),
            26 => Ok(Kind::Inclusion),
            27 => Ok(Kind::Consistency),
            28 => Ok(Kind::Entries),
            29 => Ok(Kind::Answer),
            30 => Ok(Kind::Accepted),
            31 => Ok(Kind::Refused),
            _ => Err(Refusal::Unreadable),
        }
    }
}

// What a monitor answers, which is the second byte of its answer.
#[derive(Clone, Copy, PartialEq, Eq, Debug)]
pub enum AnswerKind {
    Included = 1,
    NotDue = 2,
    Convicts = 3,
    NoHeadSoLate = 4,
}

impl AnswerKind {
    // The byte that stands for the answer.
    pub fn number(self) -> u8
        ensures { result ≡ answer_number self }
    {
        self as u8
    }
}

impl TryFrom<u8> for AnswerKind {
    type Error = Refusal;

    ghost try_from_gives = { IsAnswerKindOf };

    fn try_from(number: u8) -> Result<AnswerKind, Refusal> {
        match number {
            1 => Ok(AnswerKind::Included),
            2 => Ok(AnswerKind::NotDue),
            3 => Ok(AnswerKind::Convicts),
            4 => Ok(AnswerKind::NoHeadSoLate),
            _ => Err(Refusal::Unreadable),
        }
    }
}
