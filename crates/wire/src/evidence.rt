// What convicts a log: its promise, a head as late, and the digests of the head's entries.
use crate::log::{Sct, TreeHead};
use crate::parts::Digests;

#[derive(Clone, Copy)]
pub struct Evidence<'a> {
    pub sct: Sct,
    pub head: TreeHead,
    pub digests: Digests<'a>,
}
