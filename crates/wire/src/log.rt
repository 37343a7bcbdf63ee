// What logs sign: the promise for a certificate, and the head of all their entries.
use crate::seal::Signature;
use merkle::Digest;

// A promise that the certificate with this leaf digest is among the entries once the maximum merge delay is over.
#[derive(Clone, Copy)]
pub struct Sct {
    pub log: u8,
    pub leaf: Digest,
    pub at: u64,
    pub signature: Signature,
}

#[derive(Clone, Copy)]
pub struct TreeHead {
    pub log: u8,
    pub at: u64,
    pub count: u64,
    pub root: Digest,
    pub signature: Signature,
}
