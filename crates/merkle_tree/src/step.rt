// A subtree by where it lies, and a step down from it: the side to go on in, and the root of the side beside it.
use merkle::Digest;

#[derive(Clone, Copy)]
pub(crate) struct Span {
    pub(crate) from: usize,
    pub(crate) size: usize,
}

#[derive(Clone, Copy)]
pub(crate) struct Step {
    pub(crate) side: Span,
    pub(crate) beside: Digest,
}
