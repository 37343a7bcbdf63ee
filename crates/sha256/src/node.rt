// Digests of a tag byte and two digests, as the nodes of a tree have them: 65 bytes, two blocks.
ghost use Rattle.std.specs.Prelude.{◌≡◌, ◌∷◌, ◌++◌};
ghost use Rattle.sha256.specs.Standard.{digest};

use crate::block::compressed;
use crate::bytes::put;
use crate::padding::padded_end;
use crate::words::Words;

fn tagged(tag: u8, left: &[u8; 32], right: &[u8; 32]) -> [u8; 65]
    ensures { result ≡ tag ∷ (left.now ++ right.now) }
{
    let mut message = [0; 65];
    message[0] = tag;
    put(&mut message, 1, left);
    put(&mut message, 33, right);
    message
}

pub fn sha256_pair(tag: u8, left: &[u8; 32], right: &[u8; 32]) -> [u8; 32]
    ensures { result ≡ digest (tag ∷ (left.now ++ right.now)) }
{
    let message = tagged(tag, left, right);
    let blocks = padded_end::<128>(&message, 8 * 65);
    compressed(Words::FIRST, &blocks).to_bytes()
}
