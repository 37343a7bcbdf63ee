// The digests of no entries, of an entry and of two digests.
ghost use Rattle.std.specs.Prelude.{◌≡◌, [], ◌∷◌, ◌++◌};
ghost use Rattle.sha256.specs.Standard.{digest};
ghost use Rattle.merkle.specs.Digests.{leaf_of, node_of, empty_root};
ghost use Rattle.merkle.specs.Rows.{nodes_over, pair_at};

use crate::digest::Digest;
use sha256::{Hasher, sha256, sha256_four, sha256_pair};

// What stands before an entry, or before the two digests of a node, when they are hashed.
const LEAF: u8 = 0;

const NODE: u8 = 1;

pub fn empty_root() -> Digest
    ensures { result ≡ empty_root }
{
    sha256(&[]).into()
}

pub fn leaf_digest(entry: &[u8]) -> Digest
    ensures { result ≡ leaf_of entry.now }
{
    tagged(LEAF, entry).into()
}

pub fn node_digest(left: &Digest, right: &Digest) -> Digest
    ensures { result ≡ node_of left.now right.now }
{
    sha256_pair(NODE, &left.bytes, &right.bytes).into()
}

// The four nodes over neighbours, all worked out at once.
pub fn node_digests(children: &[Digest; 8]) -> [Digest; 4]
    ensures { result ≡ nodes_over children.now }
{
    sha256_four(NODE, &pairs(children)).map(Digest::from)
}

// The digest of a tag and a text, with no copy of the text behind the tag.
fn tagged(tag: u8, text: &[u8]) -> [u8; 32]
    ensures { result ≡ digest (tag ∷ text.now) }
{
    let mut hasher = Hasher::new();
    hasher.update(&[tag]);
    hasher.update(text);
    hasher.finalize()
}

// Written out: a closure over the index would have to be told that it is below 4.
fn pairs(children: &[Digest; 8]) -> [[u8; 64]; 4]
    ensures { result ≡ pair_at children.now 0 ∷ (pair_at children.now 2 ∷ (pair_at children.now 4 ∷ (pair_at children.now 6 ∷ []))) }
{
    [
        joined(&children[0], &children[1]),
        joined(&children[2], &children[3]),
        joined(&children[4], &children[5]),
        joined(&children[6], &children[7]),
    ]
}

fn joined(left: &Digest, right: &Digest) -> [u8; 64]
    ensures { result ≡ left.now.bytes ++ right.now.bytes }
{
    let mut both = [0; 64];
    both[..32].copy_from_slice(&left.bytes);
    both[32..].copy_from_slice(&right.bytes);
    both
}
