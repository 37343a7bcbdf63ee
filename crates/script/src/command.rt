// What a line of a script can say, and what can be wrong with one.
ghost use Rattle.std.specs.Prelude.{◌≡◌, Some, MatchResult};
ghost use Rattle.script.specs.declared.command.Fault.TheVariants.{NoMemory, UnknownCommand};
ghost use Rattle.script.specs.Grammar.{Stands, name, verbs};
ghost use Rattle.script.specs.Wording.{fault_text};

use crate::shown::Shown;
use merkle::Digest;
use std::alloc::{AllocError, AllocFailed};
use std::error::Error;
use std::fmt;

// The first word of a command.
#[derive(Clone, Copy)]
pub enum Verb {
    Enter,
    Top,
    Way,
    Proof,
    Leads,
    GoesOn,
}

impl<'a> TryFrom<&'a [u8]> for Verb {
    type Error = Fault<'a>;

    ghost try_from_gives = { λ w r. MatchResult r (λ v. w.now ≡ name v) (λ f. (f ≡ UnknownCommand w) × (Stands verbs w.now → ⊥)) };

    fn try_from(word: &'a [u8]) -> Result<Verb, Fault<'a>> {
        match word {
            b"enter" => Ok(Verb::Enter),
            b"top" => Ok(Verb::Top),
            b"way" => Ok(Verb::Way),
            b"proof" => Ok(Verb::Proof),
            b"leads" => Ok(Verb::Leads),
            b"goes-on" => Ok(Verb::GoesOn),
            _ => Err(Fault::UnknownCommand(word)),
        }
    }
}

// A command; texts are parts of the line. Two numbers stay side by side, each under the name that the script's help gives it.
#[derive(Drop)]
pub enum Command<'a> {
    Enter(&'a [u8]),
    Top,
    TopOf(u64),
    Way {
        place: u64,
        count: u64,
    },
    Proof {
        from: u64,
        to: u64,
    },
    Leads {
        place: u64,
        count: u64,
        text: &'a [u8],
        path: Vec<Digest>,
    },
    GoesOn {
        from: u64,
        to: u64,
        proof: Vec<Digest>,
    },
}

// What is wrong with a line; words are parts of it.
#[derive(Debug, Drop)]
pub enum Fault<'a> {
    UnknownCommand(&'a [u8]),
    // how the command is spoken
    Takes(&'static str),
    NotANumber(&'a [u8]),
    NotADigest(&'a [u8]),
    NoMemory,
}

impl fmt::Display for Fault<'_> {
    ghost output = { λ x. Some (fault_text x) };

    fn fmt<W: fmt::Write>(&self, f: &mut fmt::Formatter<W>) -> fmt::Result {
        match self {
            Fault::UnknownCommand(word) => {
                let word = Shown::<b'!'>(word);
                write!(f, "refused, 1: there is no command '{word}'")
            }
            Fault::Takes(usage) => write!(f, "refused, 1: it is spoken '{usage}'"),
            Fault::NotANumber(word) => {
                let word = Shown::<b'!'>(word);
                write!(f, "refused, 1: '{word}' is no number below 2^64")
            }
            Fault::NotADigest(word) => {
                let word = Shown::<b'!'>(word);
                write!(
                    f,
                    "refused, 1: '{word}' is no digest of 64 hexadecimal digits"
                )
            }
            Fault::NoMemory => f.write_str("there is no memory for this line"),
        }
    }
}

impl Error for Fault<'_> {}

// By hand, so that a contract knows which error a `?` makes.
impl<'a> From<AllocError> for Fault<'a> {
    ghost from_gives = { λ _ r. r ≡ NoMemory };

    fn from(_: AllocError) -> Fault<'a> {
        Fault::NoMemory
    }
}

impl<'a, T: Drop> From<AllocFailed<T>> for Fault<'a> {
    ghost from_gives = { λ _ r. r ≡ NoMemory };

    fn from(_: AllocFailed<T>) -> Fault<'a> {
        Fault::NoMemory
    }
}
