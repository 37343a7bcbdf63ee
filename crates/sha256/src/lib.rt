// SHA-256: of a message at once, of one that comes in parts, of two digests under a tag, and of four
// such pairs at a time.
#![tactic(auto)]

ghost use Rattle.std.specs.Prelude.{◌≡◌};
ghost use Rattle.sha256.specs.Standard.{digest};

mod block;
mod bytes;
mod constants;
mod four;
mod functions;
mod hasher;
mod node;
mod padding;
mod round;
mod schedule;
mod theorems;
mod word;
mod words;

pub use four::sha256_four;
pub use hasher::Hasher;
pub use node::sha256_pair;
pub use theorems::{abc_digest, digest_len, two_block_digest};

pub fn sha256(message: &[u8]) -> [u8; 32]
    ensures { result ≡ digest message.now }
{
    let mut hasher = Hasher::new();
    hasher.update(message);
    hasher.finalize()
}
