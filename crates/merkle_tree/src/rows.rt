// The two rows of digests of a tree, to read from: the leaves, and beside them those of whole subtrees.
ghost use Rattle.std.specs.Prelude.{◌≡◌, length};
ghost use Rattle.merkle_tree.specs.Layout.{Kept};

use merkle::Digest;

#[derive(Clone, Copy)]
pub(crate) struct Rows<'a> {
    pub(crate) leaves: &'a [Digest],
    pub(crate) mids: &'a [Digest],
    ghost paired: { length mids.now ≡ length leaves.now },
    ghost kept: { Kept leaves.now mids.now },
}
