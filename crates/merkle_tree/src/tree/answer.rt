// What a tree answers.
ghost use Rattle.std.specs.Prelude.{◌≡◌, ◌≤◌, length, take, MatchResult};
ghost use Rattle.std.specs.List.{slice_get};
ghost use Rattle.merkle_tree.specs.declared.error.TreeError.TheVariants.{NotThere};
ghost use Rattle.merkle_tree.specs.Answer.{Answers, GrowthAmong, LeafAmong, consistency_of, path_of};
ghost use Rattle.merkle_tree.specs.Layout.{root_of};
ghost use Rattle.merkle_tree.specs.View.{leaves_of};

use crate::error::TreeError;
use crate::rows::Rows;
use crate::tree::Tree;
use merkle::Digest;

impl Tree {
    // How many leaves there are.
    pub fn count(&self) -> u64
        ensures { result ≡ length (leaves_of self.now) }
    {
        self.leaves.len() as u64
    }

    // All leaf digests, oldest first.
    pub fn leaves(&self) -> &[Digest]
        ensures { result.now ≡ leaves_of self.now }
    {
        self.leaves.as_slice()
    }

    // The leaf digest at a place.
    pub fn leaf(&self, place: u64) -> Option<Digest>
        ensures { result ≡ slice_get (leaves_of self.now) place }
    {
        self.leaves.get(place as usize).copied()
    }

    // The root over all leaves.
    pub fn root(&self) -> Digest
        ensures { result ≡ root_of (leaves_of self.now) }
    {
        self.rows().root_over(self.leaves.len())
    }

    // The root over the first `count` leaves.
    pub fn root_at(&self, count: u64) -> Result<Digest, TreeError>
        ensures { MatchResult result (λ d. (count ≤ length (leaves_of self.now)) × (d ≡ root_of (take count (leaves_of self.now)))) (λ e. (e ≡ NotThere) × (count ≤ length (leaves_of self.now) → ⊥)) }
    {
        if count > self.count() {
            return Err(TreeError::NotThere);
        }
        Ok(self.rows().root_over(count as usize))
    }

    // The inclusion proof of a leaf among the first `count`.
    pub fn inclusion(&self, place: u64, count: u64) -> Result<Vec<Digest>, TreeError>
        ensures { Answers result (LeafAmong place count (leaves_of self.now)) (λ v. v.items ≡ path_of place (take count (leaves_of self.now))) }
    {
        if place >= count || count > self.count() {
            return Err(TreeError::NotThere);
        }
        self.rows()
            .path(*self.leaves.allocator(), place as usize, count as usize)
    }

    // The proof that the first `to` leaves begin with the first `from`.
    pub fn consistency(&self, from: u64, to: u64) -> Result<Vec<Digest>, TreeError>
        ensures { Answers result (GrowthAmong from to (leaves_of self.now)) (λ v. v.items ≡ consistency_of from (take to (leaves_of self.now))) }
    {
        if from == 0 || from > to || to > self.count() {
            return Err(TreeError::NotThere);
        }
        self.rows()
            .growth(*self.leaves.allocator(), from as usize, to as usize)
    }

    fn rows(&self) -> Rows<'_>
        ensures { result.leaves.now ≡ leaves_of self.now }
    {
        Rows {
            leaves: &self.leaves,
            mids: &self.mids,
        }
    }
}
