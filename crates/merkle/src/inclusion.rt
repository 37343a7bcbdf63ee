// Inclusion: the root that a path leads to from a leaf digest.
ghost use Rattle.std.specs.Prelude.{◌≡◌, Decides};
ghost use Rattle.merkle_theory.specs.Tree.{root_from_path, PathLeads};
ghost use Rattle.merkle.specs.Digests.{node_of};
ghost use Rattle.merkle.specs.Inclusion.{over_path, TurnsToLeaf};

use crate::climb::{Rise, climb};
use crate::digest::Digest;
use crate::hashing::node_digest;
use crate::way::Way;

impl Rise for Digest {
    ghost raised = { over_path };

    fn rise(self, right: bool, beside: &Digest) -> Digest {
        if right {
            node_digest(beside, &self)
        } else {
            node_digest(&self, beside)
        }
    }
}

// The root that the path leads to from the leaf digest at a place of a tree of `count` leaves; None if the path has
// another length than the way to that place. The digest nearest to the root comes first. Count and place are two numbers here, since a
// caller has them so; they are a `Way` once they fit.
pub fn root_from_path(count: u64, place: u64, leaf: &Digest, path: &[Digest]) -> Option<Digest>
    ensures { result ≡ root_from_path node_of count place leaf.now path.now }
{
    let turns = turns_to_leaf(count, place, path.len())?;
    Some(climb(*leaf, turns, path))
}

pub fn path_leads(count: u64, place: u64, leaf: &Digest, path: &[Digest], root: &Digest) -> bool
    ensures { Decides result (PathLeads node_of count place leaf.now path.now root.now) }
{
    root_from_path(count, place, leaf, path) == Some(*root)
}

// No digest is made here, so that a path of a wrong length costs nothing.
fn turns_to_leaf(count: u64, place: u64, levels: usize) -> Option<u64>
    ensures { TurnsToLeaf count place levels result }
{
    let way = Way::from_root(count, place)?.down_until(levels, |way| way.count == 1)?;
    (way.levels == levels).then_some(way.turns)
}
