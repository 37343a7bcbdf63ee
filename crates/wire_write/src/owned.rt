// What a party keeps of what came: a certificate with a name of its own, and a list with its serials as numbers.
use wire::{Key, Signature};

#[derive(Drop)]
pub struct OwnedCertificate {
    pub issuer: u8,
    pub name: Vec<u8>,
    pub key: Key,
    pub serial: u64,
    pub expiry: u64,
    pub signature: Signature,
}

#[derive(Drop)]
pub struct OwnedList {
    pub authority: u8,
    pub at: u64,
    pub serials: Vec<u64>,
    pub signature: Signature,
}
