// The leaves of the trees that are measured: the entry at a place is the place's number, in eight bytes.
ghost use Rattle.std.specs.Prelude.{◌≡◌};
ghost use Rattle.merkle.specs.Digests.{leaf_of};
ghost use Rattle.bench_tree.specs.Entries.{entry_at};

use merkle::{Digest, leaf_digest};

pub(crate) fn leaf_at(place: u64) -> Digest
    ensures { result ≡ leaf_of (entry_at place) }
{
    leaf_digest(&place.to_be_bytes())
}
