// Why a tree refuses.
ghost use Rattle.std.specs.Prelude.{◌≡◌, Some};
ghost use Rattle.merkle_tree.specs.Answer.{refusal_text};
ghost use Rattle.merkle_tree.specs.declared.error.TreeError.TheVariants.{NoMemory};

use std::alloc::{AllocError, AllocFailed};
use std::error::Error;
use std::fmt;

#[derive(Clone, Copy, PartialEq, Eq, Debug)]
pub enum TreeError {
    // the leaves asked for aren't there
    NotThere,
    NoMemory,
}

impl fmt::Display for TreeError {
    ghost output = { λ e. Some (refusal_text e) };

    fn fmt<W: fmt::Write>(&self, f: &mut fmt::Formatter<W>) -> fmt::Result {
        match self {
            TreeError::NotThere => write!(f, "the tree has too few leaves"),
            TreeError::NoMemory => write!(f, "no memory"),
        }
    }
}

impl Error for TreeError {}

// These two are written by hand, so that a contract knows which error a `?` makes.
impl From<AllocError> for TreeError {
    ghost from_gives = { λ _ r. r ≡ NoMemory };

    fn from(_error: AllocError) -> TreeError {
        TreeError::NoMemory
    }
}

impl<T: Drop> From<AllocFailed<T>> for TreeError {
    ghost from_gives = { λ _ r. r ≡ NoMemory };

    fn from(_error: AllocFailed<T>) -> TreeError {
        TreeError::NoMemory
    }
}
