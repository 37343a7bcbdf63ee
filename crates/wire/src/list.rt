// A revocation list: the serials that an authority says are revoked.
use crate::parts::Serials;
use crate::seal::Signature;

#[derive(Clone, Copy)]
pub struct RevocationList<'a> {
    pub authority: u8,
    pub at: u64,
    pub serials: Serials<'a>,
    pub signature: Signature,
}
