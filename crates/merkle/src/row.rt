// The root of a row of leaf digests. Whole subtrees are worked out four at a time, as long as there are four.
ghost use Rattle.std.specs.Prelude.{◌≡◌, ◌+◌, ◌*◌, ◌<◌, ◌≤◌, length};
ghost use Rattle.merkle_theory.specs.Tree.{root};
ghost use Rattle.merkle_theory.specs.Laws.{PowerOfTwo};
ghost use Rattle.merkle.specs.Digests.{leaves, node_of};
ghost use Rattle.merkle.specs.Rows.{part_roots};

use crate::digest::Digest;
use crate::hashing::{empty_root, node_digest, node_digests};
use crate::split::left_size;

pub fn root_of(row: &[Digest]) -> Digest
    ensures { result ≡ root leaves row.now }
{
    match row {
        [] => return empty_root(),
        [leaf] => return *leaf,
        _ => {}
    }
    let (left, right) = sides(row);
    if left.len() == right.len() && left.len() > 1 {
        return whole_root(row, left.len() / 2);
    }
    node_digest(&root_of(left), &root_of(right))
}

// The two sides of a row: the left one is whole.
fn sides(row: &[Digest]) -> (&[Digest], &[Digest])
    requires { 2 ≤ length row.now }
    ensures whole { PowerOfTwo (length result.0.now) }
    ensures all { length result.0.now + length result.1.now ≡ length row.now }
    ensures rest { 0 < length result.1.now }
    ensures over { root leaves row.now ≡ node_of (root leaves result.0.now) (root leaves result.1.now) }
{
    row.split_at(left_size(row.len() as u64) as usize)
}

// The root of four whole subtrees.
fn whole_root(row: &[Digest], size: usize) -> Digest
    requires long { length row.now ≡ 4 * size }
    requires power { PowerOfTwo size }
    ensures { result ≡ root leaves row.now }
{
    let roots = quarters(row, size);
    node_digest(
        &node_digest(&roots[0], &roots[1]),
        &node_digest(&roots[2], &roots[3]),
    )
}

// The roots of four neighbouring whole subtrees, each of `size` leaves: from the eight that are half as large.
fn quarters(row: &[Digest], size: usize) -> [Digest; 4]
    requires long { length row.now ≡ 4 * size }
    requires power { PowerOfTwo size }
    ensures { result ≡ part_roots 4 size row.now }
{
    if size == 1 {
        return [row[0], row[1], row[2], row[3]];
    }
    let (front, back) = row.split_at(2 * size);
    let a = quarters(front, size / 2);
    let b = quarters(back, size / 2);
    // Written out: no method joins two arrays into one.
    node_digests(&[a[0], a[1], a[2], a[3], b[0], b[1], b[2], b[3]])
}
