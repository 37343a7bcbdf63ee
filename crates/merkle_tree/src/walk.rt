// The way down from the root to a place: both kinds of proof have the digests beside it, from the root down.
ghost use Rattle.std.specs.Prelude.{◌≡◌, ℕ, ◌+◌, ◌<◌, ◌≤◌, false, true, length, take, MatchResult};
ghost use Rattle.merkle_tree.specs.declared.error.TreeError.TheVariants.{NoMemory};
ghost use Rattle.merkle_tree.specs.Answer.{consistency_of, path_of};
ghost use Rattle.merkle_tree.specs.Layout.{Subtree};
ghost use Rattle.merkle_tree.specs.Walk.{Walks};

use crate::error::TreeError;
use crate::rows::Rows;
use crate::step::Span;
use merkle::Digest;
use std::alloc::Global;

// The digests beside a way down, and the subtree where it ends.
#[derive(Drop)]
struct Walk {
    beside: Vec<Digest>,
    end: Span,
}

impl Rows<'_> {
    // The digests beside the way down to a leaf.
    pub(crate) fn path(
        &self,
        heap: Global,
        place: usize,
        count: usize,
    ) -> Result<Vec<Digest>, TreeError>
        requires there { place < count }
        requires within { count ≤ length self.now.leaves.now }
        ensures { MatchResult result (λ v. v.items ≡ path_of place (take count self.now.leaves.now)) (λ e. e ≡ NoMemory) }
    {
        let walk = self.walk(heap, place, count, |size, _| size == 1)?;
        Ok(walk.beside)
    }

    // The digests beside the way down to the last of the first `old` leaves, as far as the subtree that ends with it. That
    // subtree's root comes last, unless it is the root over all of them.
    pub(crate) fn growth(
        &self,
        heap: Global,
        old: usize,
        count: usize,
    ) -> Result<Vec<Digest>, TreeError>
        requires some { 0 < old }
        requires there { old ≤ count }
        requires within { count ≤ length self.now.leaves.now }
        ensures { MatchResult result (λ v. v.items ≡ consistency_of old (take count self.now.leaves.now)) (λ e. e ≡ NoMemory) }
    {
        let mut walk = self.walk(heap, old - 1, count, |_, end| end == old)?;
        if walk.end.from > 0 {
            walk.beside.push(self.subtree(walk.end))?;
        }
        Ok(walk.beside)
    }

    // Down to a place, until `ends` says so of a subtree's size and of the place behind it.
    fn walk<F: Fn(usize, usize) -> bool>(
        &self,
        heap: Global,
        place: usize,
        count: usize,
        ends: F,
    ) -> Result<Walk, TreeError>
        requires there { place < count }
        requires within { count ≤ length self.now.leaves.now }
        requires callable { F.IsAlwaysCallable ends }
        requires goes_on { (from size : ℕ) → from ≤ place → place < from + size → F.post ends size (from + size) false → 2 ≤ size }
        ensures { MatchResult result (λ w. Walks (λ f s. F.post ends s (f + s) false) self.now.leaves.now place w.beside.items 0 count w.end.from w.end.size × F.post ends w.end.size (w.end.from + w.end.size) true × Subtree self.now.leaves.now w.end.from w.end.size) (λ e. e ≡ NoMemory) }
    {
        let mut beside = Vec::new(heap);
        let mut span = Span {
            from: 0,
            size: count,
        };
        // A loop that is left by its label, as was asked for.
        'down: loop {
            if ends(span.size, span.from + span.size) {
                break 'down;
            }
            let step = self.down(span, place);
            beside.push(step.beside)?;
            span = step.side;
        }
        Ok(Walk { beside, end: span })
    }
}
