// How a tree begins and grows.
ghost use Rattle.std.specs.Prelude.{◌≡◌, [], ◌∷◌};
ghost use Rattle.merkle_tree.specs.Answer.{Appends};
ghost use Rattle.merkle_tree.specs.View.{leaves_of};

use crate::error::TreeError;
use crate::fill::fill;
use crate::tree::Tree;
use merkle::Digest;
use std::alloc::Global;

impl Tree {
    // A tree of no leaves.
    pub fn new(heap: Global) -> Self
        ensures { leaves_of result ≡ [] }
    {
        Tree {
            leaves: Vec::new(heap),
            mids: Vec::new(heap),
        }
    }

    // Adds a leaf. On average that works out one node digest.
    pub fn push(&mut self, leaf: Digest) -> Result<(), TreeError>
        ensures { Appends result (leaf ∷ []) (leaves_of self.old) (leaves_of self.new) }
    {
        self.extend(&[leaf])
    }

    // Adds a row of leaves. Without memory for it the tree stays as it was.
    pub fn extend(&mut self, row: &[Digest]) -> Result<(), TreeError>
        ensures { Appends result row.now (leaves_of self.old) (leaves_of self.new) }
    {
        let before = self.leaves.len();
        // room for as many middles, each of which is written over once its subtree is whole
        self.mids.extend_from_slice(row)?;
        if self.leaves.extend_from_slice(row).is_err() {
            self.mids.truncate(before);
            return Err(TreeError::NoMemory);
        }
        fill(&self.leaves, &mut self.mids, before);
        Ok(())
    }
}
