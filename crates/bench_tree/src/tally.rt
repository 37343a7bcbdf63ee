// What came of many proofs.
use std::fmt;

#[derive(Clone, Copy, Default)]
pub(crate) struct Tally {
    // how many led to the roots that they should
    pub(crate) accepted: u64,
    // how many digests they had, all together
    pub(crate) digests: u64,
}

impl Tally {
    pub(crate) fn with(self, accepted: bool, digests: usize) -> Tally {
        Tally {
            accepted: self.accepted.saturating_add(u64::from(accepted)),
            digests: self.digests.saturating_add(digests as u64),
        }
    }
}

impl fmt::Display for Tally {
    fn fmt<W: fmt::Write>(&self, f: &mut fmt::Formatter<W>) -> fmt::Result {
        let accepted = self.accepted;
        let digests = self.digests;
        write!(f, "{accepted} accepted, {digests} digests")
    }
}
