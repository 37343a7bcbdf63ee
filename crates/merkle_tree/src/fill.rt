// Working out the roots of the whole subtrees that new leaves complete, a row of equally large ones at a time.
// The leaves and the middles are two parameters here: in one struct behind a `&mut`, each contract would have to say that the
// leaves stay as they are. A place and a size are two as well, since a row's size stays while the place goes on.
ghost use Rattle.std.specs.Prelude.{◌≡◌, ℕ, ◌+◌, ◌*◌, ◌<◌, ◌≤◌, length};
ghost use Rattle.merkle_tree.specs.Layout.{Kept};
ghost use Rattle.merkle_tree.specs.Fill.{KeptTo, Levels, Row, kept_eight};

use crate::subtree::whole;
use merkle::{Digest, node_digest, node_digests};
use std::array;

// Works out the root of one subtree, over twice `size` leaves.
fn join(leaves: &[Digest], mids: &mut [Digest], from: usize, size: usize)
    requires some { 1 ≤ size }
    requires within { from + (size + size) ≤ length leaves.now }
    requires paired { length mids.old ≡ length leaves.now }
    ensures { (count : ℕ) → Row leaves.now mids.old count size from → Row leaves.now mids.new count size (from + (size + size)) }
{
    let left = whole(leaves, mids, from, size);
    let right = whole(leaves, mids, from + size, size);
    mids[from + size] = node_digest(&left, &right);
}

// What is kept for eight neighbouring whole subtrees.
fn eight(leaves: &[Digest], mids: &[Digest], from: usize, size: usize) -> [Digest; 8]
    requires some { 1 ≤ size }
    requires within { from + 8 * size ≤ length leaves.now }
    requires paired { length mids.now ≡ length leaves.now }
    ensures { result ≡ kept_eight leaves.now mids.now from size }
{
    array::from_fn(|i| whole(leaves, mids, from + i * size, size))
}

// Works out the roots of four neighbouring subtrees, each over twice `size` leaves, at once.
fn join_four(leaves: &[Digest], mids: &mut [Digest], from: usize, size: usize)
    requires some { 1 ≤ size }
    requires within { from + 8 * size ≤ length leaves.now }
    requires paired { length mids.old ≡ length leaves.now }
    ensures { (count : ℕ) → Row leaves.now mids.old count size from → Row leaves.now mids.new count size (from + 8 * size) }
{
    let roots = node_digests(&eight(leaves, mids, from, size));
    // Each in the middle of its subtree; the four lines are the layout.
    mids[from + size] = roots[0];
    mids[from + 3 * size] = roots[1];
    mids[from + 5 * size] = roots[2];
    mids[from + 7 * size] = roots[3];
}

// Works out roots four at a time from a place on, and returns the place from which fewer than four are left.
fn join_fours(leaves: &[Digest], mids: &mut [Digest], from: usize, size: usize) -> usize
    requires some { 1 ≤ size }
    requires within { from ≤ length leaves.now }
    requires paired { length mids.old ≡ length leaves.now }
    ensures within { result ≤ length leaves.now }
    ensures few_left { length leaves.now < result + 8 * size }
    ensures row { (count : ℕ) → Row leaves.now mids.old count size from → Row leaves.now mids.new count size result }
{
    let mut at = from;
    // No range in steps of 8 * size: where it would end is what is worked out here.
    while size <= (leaves.len() - at) / 8 {
        join_four(leaves, mids, at, size);
        at += 8 * size;
    }
    at
}

// Works out the roots of all subtrees over twice `size` leaves from a place on.
fn join_row(leaves: &[Digest], mids: &mut [Digest], from: usize, size: usize)
    requires some { 1 ≤ size }
    requires some_due { from + (size + size) ≤ length leaves.now }
    requires paired { length mids.old ≡ length leaves.now }
    ensures { (count : ℕ) → Row leaves.now mids.old count size from → Levels leaves.now mids.new count (size * 2) }
{
    let mut at = join_fours(leaves, mids, from, size);
    // In steps of 2 * size, likewise.
    while size <= (leaves.len() - at) / 2 {
        join(leaves, mids, at, size);
        at += 2 * size;
    }
}

// Works out the roots of all whole subtrees that the leaves from a place on complete, smaller ones first. Where a row has none,
// no later row has.
pub(crate) fn fill(leaves: &[Digest], mids: &mut [Digest], from: usize)
    requires within { from ≤ length leaves.now }
    requires paired { length mids.old ≡ length leaves.now }
    requires kept { KeptTo leaves.now mids.old from }
    ensures paired { length mids.new ≡ length leaves.now }
    ensures kept { Kept leaves.now mids.new }
{
    let count = leaves.len();
    let mut size = 1;
    // The size doubles; where that ends is what is worked out.
    while size <= count / 2 {
        let at = from - from % (2 * size);
        if (count - at) / 2 < size {
            return;
        }
        join_row(leaves, mids, at, size);
        size *= 2;
    }
}
