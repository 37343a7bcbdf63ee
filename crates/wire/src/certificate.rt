// A certificate: that a key belongs to a name, signed by an authority. Its name is a part of what came.
use crate::seal::{Key, Signature};

#[derive(Clone, Copy)]
pub struct Certificate<'a> {
    pub issuer: u8,
    pub name: &'a [u8],
    pub key: Key,
    pub serial: u64,
    // the last tick at which it is good
    pub expiry: u64,
    pub signature: Signature,
}
