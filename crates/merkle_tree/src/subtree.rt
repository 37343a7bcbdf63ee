// Roots of subtrees from kept digests: a whole one's is read, any other has a node digest for each further whole one in it.
ghost use Rattle.std.specs.Prelude.{◌≡◌, ◌+◌, ◌<◌, ◌≤◌, length, take};
ghost use Rattle.merkle_theory.specs.Tree.{split};
ghost use Rattle.merkle_tree.specs.Layout.{Subtree, kept_at, part, root_of};
ghost use Rattle.merkle_tree.specs.Walk.{step_to};

use crate::rows::Rows;
use crate::step::{Span, Step};
use merkle::{Digest, empty_root, left_size, node_digest};

// The digest kept for a whole subtree.
pub(crate) fn whole(leaves: &[Digest], mids: &[Digest], from: usize, size: usize) -> Digest
    requires some { 1 ≤ size }
    requires within { from + size ≤ length leaves.now }
    requires paired { length mids.now ≡ length leaves.now }
    ensures { result ≡ kept_at leaves.now mids.now from size }
{
    if size == 1 {
        leaves[from]
    } else {
        mids[from + size / 2]
    }
}

// The size of the largest whole subtree that a subtree begins with: the greatest power of two up to its size.
fn first_whole(size: usize) -> usize
    requires { 1 ≤ size }
    ensures value { result ≡ split (size + 1) }
    ensures bounds { (1 ≤ result) × (result ≤ size) }
{
    1 << size.ilog2()
}

// The size of the left side of a subtree.
fn left_side(size: usize) -> usize
    requires { 2 ≤ size }
    ensures value { result ≡ split size }
    ensures bounds { (1 ≤ result) × (result < size) }
{
    left_size(size as u64) as usize
}

impl Rows<'_> {
    // The root of a subtree.
    pub(crate) fn subtree(&self, span: Span) -> Digest
        requires { Subtree self.now.leaves.now span.from span.size }
        ensures { result ≡ root_of (part span.from span.size self.now.leaves.now) }
    {
        let first = first_whole(span.size);
        let left = whole(self.leaves, self.mids, span.from, first);
        if first == span.size {
            return left;
        }
        let rest = Span {
            from: span.from + first,
            size: span.size - first,
        };
        node_digest(&left, &self.subtree(rest))
    }

    // The root over the first `count` leaves. The count is the caller's, so it is asked here that there are as many.
    pub(crate) fn root_over(&self, count: usize) -> Digest
        requires { count ≤ length self.now.leaves.now }
        ensures { result ≡ root_of (take count self.now.leaves.now) }
    {
        if count == 0 {
            return empty_root();
        }
        self.subtree(Span {
            from: 0,
            size: count,
        })
    }

    // One step down from a subtree, to the side that has the place.
    pub(crate) fn down(&self, span: Span, place: usize) -> Step
        requires two { 2 ≤ span.size }
        requires subtree { Subtree self.now.leaves.now span.from span.size }
        ensures { result ≡ step_to self.now.leaves.now span.from span.size place }
    {
        let size = left_side(span.size);
        let left = Span {
            from: span.from,
            size,
        };
        let right = Span {
            from: span.from + size,
            size: span.size - size,
        };
        if place < right.from {
            Step {
                side: left,
                beside: self.subtree(right),
            }
        } else {
            Step {
                side: right,
                beside: self.subtree(left),
            }
        }
    }
}
