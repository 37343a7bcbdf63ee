// Why something is refused.
ghost use Rattle.std.specs.Prelude.{◌≡◌, Some};
ghost use Rattle.wire.specs.declared.refusal.Refusal.TheVariants.{NoMemory};
ghost use Rattle.wire.specs.Refusals.{IsRefusalOf, cause_text, part_number, refusal_number};

use std::alloc::{AllocError, AllocFailed};
use std::error::Error;
use std::fmt;

// Which part of the evidence is not so.
#[derive(Clone, Copy, PartialEq, Eq, Debug)]
pub enum Part {
    // promise and head are of one log
    OneLog = 1,
    // the head's tick is not below the promise's and the maximum merge delay
    LateEnough = 2,
    // the promised digest is not among the entries'
    NotAmong = 3,
    // the digests give the head's root
    GiveRoot = 4,
}

impl Part {
    // The part's number, from 1 on.
    pub fn number(&self) -> u8
        ensures { result ≡ part_number self.now }
    {
        *self as u8
    }
}

#[derive(Clone, Copy, PartialEq, Eq, Debug)]
pub enum Refusal {
    // unknown kind, bad length
    Unreadable,
    // an authority, log, place or number that isn't there
    NotThere,
    WrongSignature,
    // what was published isn't there, or isn't right
    NotPublished,
    // a head of a lower tick, or with fewer entries
    OldHead,
    // a path or consistency proof that leads elsewhere
    LeadsElsewhere,
    // entries that don't give the root
    OtherRoot,
    // a promise for another certificate, two of one log, or of a later tick
    OtherPromise,
    Expired,
    // no fresh list of that authority
    NoFreshList,
    Revoked,
    // the row, a list or the file is full
    Full,
    DoesNotConvict(Part),
    // drawn bytes are used up, a serial or a tick at 2^63
    UsedUp,
    // has no number
    NoMemory,
}

impl Refusal {
    // The refusal's number; want of memory has none, so that these are no discriminants.
    pub fn code(&self) -> Option<u8>
        ensures { result ≡ refusal_number self.now }
    {
        match self {
            Refusal::Unreadable => Some(1),
            Refusal::NotThere => Some(2),
            Refusal::WrongSignature => Some(3),
            Refusal::NotPublished => Some(4),
            Refusal::OldHead => Some(5),
            Refusal::LeadsElsewhere => Some(6),
            Refusal::OtherRoot => Some(7),
            Refusal::OtherPromise => Some(8),
            Refusal::Expired => Some(9),
            Refusal::NoFreshList => Some(10),
            Refusal::Revoked => Some(11),
            Refusal::Full => Some(12),
            Refusal::DoesNotConvict(_) => Some(13),
            Refusal::UsedUp => Some(14),
            Refusal::NoMemory => None,
        }
    }

    // A refusal with this number; which part of the evidence is not so, a number doesn't tell, so it is the first.
    pub fn from_number(number: u8) -> Option<Refusal>
        ensures { IsRefusalOf number result }
    {
        match number {
            1 => Some(Refusal::Unreadable),
            2 => Some(Refusal::NotThere),
            3 => Some(Refusal::WrongSignature),
            4 => Some(Refusal::NotPublished),
            5 => Some(Refusal::OldHead),
            6 => Some(Refusal::LeadsElsewhere),
            7 => Some(Refusal::OtherRoot),
            8 => Some(Refusal::OtherPromise),
            9 => Some(Refusal::Expired),
            10 => Some(Refusal::NoFreshList),
            11 => Some(Refusal::Revoked),
            12 => Some(Refusal::Full),
            13 => Some(Refusal::DoesNotConvict(Part::OneLog)),
            14 => Some(Refusal::UsedUp),
            _ => None,
        }
    }

    // The cause in words, which are constants, since there may be no memory for others.
    pub fn cause(&self) -> &'static str
        ensures { result.now ≡ cause_text self.now }
    {
        match self {
            Refusal::Unreadable => "unknown kind or bad length",
            Refusal::NotThere => "an authority, log, place or number that isn't there",
            Refusal::WrongSignature => "a wrong signature",
            Refusal::NotPublished => "what was published isn't there, or isn't right",
            Refusal::OldHead => "a head of a lower tick, or with fewer entries",
            Refusal::LeadsElsewhere => "a path or consistency proof that leads elsewhere",
            Refusal::OtherRoot => "entries that don't give the root",
            Refusal::OtherPromise =>
                "a promise for another certificate, two of one log, or of a later tick",
            Refusal::Expired => "the certificate has expired",
            Refusal::NoFreshList => "no fresh list of that authority",
            Refusal::Revoked => "revoked",
            Refusal::Full => "the row, a list or the file is full",
            Refusal::DoesNotConvict(_) => "it doesn't convict",
            Refusal::UsedUp => "drawn bytes are used up, or a serial or a tick at 2^63",
            Refusal::NoMemory => "there is no memory",
        }
    }
}

impl fmt::Display for Refusal {
    ghost output = { λ r. Some (cause_text r) };

    fn fmt<W: fmt::Write>(&self, f: &mut fmt::Formatter<W>) -> fmt::Result {
        f.write_str(self.cause())
    }
}

impl Error for Refusal {}

// By hand, so that a contract knows which error a `?` makes.
impl From<AllocError> for Refusal {
    ghost from_gives = { λ _ r. r ≡ NoMemory };

    fn from(_: AllocError) -> Refusal {
        Refusal::NoMemory
    }
}

impl<T: Drop> From<AllocFailed<T>> for Refusal {
    ghost from_gives = { λ _ r. r ≡ NoMemory };

    fn from(_: AllocFailed<T>) -> Refusal {
        Refusal::NoMemory
    }
}
