// The roots of an earlier and of a later tree, as a consistency proof leads to them.
use crate::digest::Digest;

#[derive(Clone, Copy, PartialEq, Eq, Debug)]
pub struct Roots {
    pub earlier: Digest,
    pub later: Digest,
}
