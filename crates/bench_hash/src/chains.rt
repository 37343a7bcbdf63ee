// Four chains of digests, in each of which the next is the node over two of the last.
use merkle::Digest;

#[derive(Clone, Copy)]
pub(crate) struct Chains {
    pub(crate) a: Digest,
    pub(crate) b: Digest,
    pub(crate) c: Digest,
    pub(crate) d: Digest,
}
