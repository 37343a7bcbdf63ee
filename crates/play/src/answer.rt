// What a command is answered by, or why it is refused; each prints in words.
ghost use Rattle.std.specs.Prelude.{◌≡◌, Some};
ghost use Rattle.play.specs.declared.answer.Refusal.TheVariants.{NoMemory};
ghost use Rattle.play.specs.Refusals.{number, refused};
ghost use Rattle.play.specs.Wording.{answer_text, listed_digests, refusal_text};

use merkle::Digest;
use merkle_tree::TreeError;
use script::Hex;
use std::error::Error;
use std::fmt;

// What a command is answered; two numbers keep the names that the script's help gives them.
#[derive(Drop)]
pub enum Answer {
    Entered {
        place: u64,
    },
    Top {
        count: u64,
        root: Digest,
    },
    Way {
        place: u64,
        count: u64,
        path: Vec<Digest>,
    },
    Proof {
        from: u64,
        to: u64,
        proof: Vec<Digest>,
    },
    Leads {
        place: u64,
        count: u64,
    },
    GoesOn {
        from: u64,
        to: u64,
    },
}

// Digests, each behind a blank, or that there are none.
#[derive(Clone, Copy)]
struct Listed<'a>(&'a [Digest]);

impl fmt::Display for Listed<'_> {
    ghost output = { λ l. Some (listed_digests l.0.now) };

    fn fmt<W: fmt::Write>(&self, f: &mut fmt::Formatter<W>) -> fmt::Result {
        if self.0.is_empty() {
            return f.write_str(" empty");
        }
        for digest in self.0 {
            write!(f, " {}", Hex(&digest.bytes))?;
        }
        Ok(())
    }
}

impl fmt::Display for Answer {
    ghost output = { λ a. Some (answer_text a) };

    fn fmt<W: fmt::Write>(&self, f: &mut fmt::Formatter<W>) -> fmt::Result {
        match self {
            Answer::Entered { place } => write!(f, "entered at place {place}"),
            Answer::Top { count, root } => {
                write!(f, "the top of {count} is {}", Hex(&root.bytes))
            }
            Answer::Way { place, count, path } => {
                write!(f, "the way of place {place} of {count} is{}", Listed(path))
            }
            Answer::Proof { from, to, proof } => {
                write!(f, "the proof from {from} to {to} is{}", Listed(proof))
            }
            Answer::Leads { place, count } => {
                write!(f, "that leads from place {place} to the top of {count}")
            }
            Answer::GoesOn { from, to } => write!(f, "that goes on from {from} to {to}"),
        }
    }
}

#[derive(Clone, Copy, Debug)]
pub enum Refusal {
    // a place or a count that isn't there
    NotThere,
    // a way or a proof that leads elsewhere
    Elsewhere,
    NoMemory,
}

impl Refusal {
    // The refusal's number; want of memory has none, so that these are no discriminants.
    pub fn code(&self) -> Option<u8>
        ensures { result ≡ number self.now }
    {
        match self {
            Refusal::NotThere => Some(2),
            Refusal::Elsewhere => Some(6),
            Refusal::NoMemory => None,
        }
    }

    // The refusal in words, which are constants, since there may be no memory for others: `Display` may fail, this can't.
    pub fn in_words(&self) -> &'static str
        ensures { result.now ≡ refusal_text self.now }
    {
        match self {
            Refusal::NotThere => "refused, 2: a place or a count that isn't there",
            Refusal::Elsewhere => "refused, 6: a way or a proof that leads elsewhere",
            Refusal::NoMemory => "there is no memory for this command",
        }
    }
}

impl fmt::Display for Refusal {
    ghost output = { λ r. Some (refusal_text r) };

    fn fmt<W: fmt::Write>(&self, f: &mut fmt::Formatter<W>) -> fmt::Result {
        f.write_str(self.in_words())
    }
}

impl Error for Refusal {}

impl From<TreeError> for Refusal {
    ghost from_gives = { λ e r. r ≡ refused e };

    fn from(e: TreeError) -> Refusal {
        match e {
            TreeError::NotThere => Refusal::NotThere,
            TreeError::NoMemory => Refusal::NoMemory,
        }
    }
}
