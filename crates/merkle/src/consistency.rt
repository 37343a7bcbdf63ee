// Consistency: the roots of an earlier and of a later tree that a consistency proof leads to.
ghost use Rattle.std.specs.Prelude.{◌≡◌, ◌+◌, true, reverse, if◌then◌else◌, Decides, nat_lt};
ghost use Rattle.merkle_theory.specs.Tree.{roots_from_consistency, ConsistencyLeads};
ghost use Rattle.merkle.specs.Digests.{node_of};
ghost use Rattle.merkle.specs.Consistency.{both, over_proof, roots_above, as_roots, TurnsToLast};

use crate::climb::{Rise, climb};
use crate::digest::Digest;
use crate::hashing::node_digest;
use crate::roots::Roots;
use crate::way::Way;

impl Rise for Roots {
    ghost raised = { over_proof };

    // On the left nothing is beside the earlier tree: what lies right of it came later.
    fn rise(self, right: bool, beside: &Digest) -> Roots {
        if right {
            Roots {
                earlier: node_digest(beside, &self.earlier),
                later: node_digest(beside, &self.later),
            }
        } else {
            Roots {
                earlier: self.earlier,
                later: node_digest(&self.later, beside),
            }
        }
    }
}

// The roots of the first `from` leaves and of all `to` that the proof leads to, if `earlier` is the root of the first;
// None if the proof has another length than it must have. The digest nearest to the root comes first.
pub fn roots_from_consistency(
    from: u64,
    to: u64,
    earlier: &Digest,
    proof: &[Digest],
) -> Option<Roots>
    ensures { as_roots result ≡ roots_from_consistency node_of from to true earlier.now proof.now }
{
    if from == 0 {
        return roots_from_none(to, earlier, proof);
    }
    let turns = turns_to_last(to, from - 1, proof.len())?;
    Some(roots_above(turns, earlier, proof))
}

pub fn consistency_leads(
    from: u64,
    to: u64,
    earlier: &Digest,
    later: &Digest,
    proof: &[Digest],
) -> bool
    ensures { Decides result (ConsistencyLeads node_of from to earlier.now later.now proof.now) }
{
    roots_from_consistency(from, to, earlier, proof).is_some_and(|found| found.earlier == *earlier
        && found.later == *later)
}

// Where there were no leaves, all that a proof can say is that there are none.
fn roots_from_none(to: u64, earlier: &Digest, proof: &[Digest]) -> Option<Roots>
    ensures { as_roots result ≡ roots_from_consistency node_of 0 to true earlier.now proof.now }
{
    (to == 0 && proof.is_empty()).then_some(alike(earlier))
}

fn alike(root: &Digest) -> Roots
    ensures { result ≡ both root.now }
{
    Roots {
        earlier: *root,
        later: *root,
    }
}

// A way that went left only ends at the earlier tree, whose root the proof needn't have. Else the subtree where it ends
// has its digest in the proof, as the last.
fn roots_above(turns: u64, earlier: &Digest, proof: &[Digest]) -> Roots
    ensures { result ≡ roots_above turns earlier.now (reverse proof.now) }
{
    match proof.split_last() {
        Some((last, beside)) if turns > 0 => climb(alike(last), turns, beside),
        _ => climb(alike(earlier), turns, proof),
    }
}

// The way down to the first subtree that ends with the place. No digest is made here, so that a proof of a wrong length
// costs nothing.
fn turns_to_last(count: u64, place: u64, levels: usize) -> Option<u64>
    ensures { TurnsToLast count place levels result }
{
    let way = Way::from_root(count, place)?.down_until(levels, |way| way.place == way.count - 1)?;
    (proof_length(&way) == levels).then_some(way.turns)
}

// How many digests a proof has whose way ends here.
fn proof_length(way: &Way) -> usize
    ensures { result ≡ (if nat_lt 0 way.now.turns then way.now.levels + 1 else way.now.levels) }
{
    if way.turns > 0 {
        way.levels + 1
    } else {
        way.levels
    }
}
