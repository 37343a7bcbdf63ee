// The tree: its leaf digests, and beside them a digest for each whole subtree of two leaves or more.
ghost use Rattle.std.specs.Prelude.{◌≡◌, length};
ghost use Rattle.merkle_tree.specs.Layout.{Kept};

use merkle::Digest;

mod answer;
mod grow;

// The digest of the whole subtree over the leaves from a to a + s stands at mids[a + s / 2]: each place but the first is the
// middle of one whole subtree, so that the two rows are equally long. They are two rows, since `leaves` lends the one.
#[derive(Drop)]
pub struct Tree {
    leaves: Vec<Digest>,
    mids: Vec<Digest>,
    ghost paired: { length mids.items ≡ length leaves.items },
    ghost kept: { Kept leaves.items mids.items },
}
