// The work that is measured: growing a tree, and making and checking proofs.
ghost use Rattle.std.specs.Prelude.{◌≡◌, IfOk, MatchResult};
ghost use Rattle.merkle_tree.specs.declared.error.TreeError.TheVariants.{NoMemory};
ghost use Rattle.merkle_tree.specs.View.{leaves_of};
ghost use Rattle.bench_tree.specs.Entries.{leaves_to};

use crate::leaf::leaf_at;
use crate::tally::Tally;
use bench_tools::Draws;
use merkle::{Digest, consistency_leads, path_leads};
use merkle_tree::{Tree, TreeError};
use std::alloc::{AllocError, Global};

// An earlier state of a tree.
#[derive(Clone, Copy)]
pub(crate) struct Earlier {
    count: u64,
    root: Digest,
}

// A tree that grew leaf by leaf.
pub(crate) fn grown(heap: Global, count: u64) -> Result<Tree, TreeError>
    ensures { MatchResult result (λ t. leaves_of t ≡ leaves_to count) (λ e. e ≡ NoMemory) }
{
    let mut tree = Tree::new(heap);
    // The number is what is entered.
    for place in 0..count {
        tree.push(leaf_at(place))?;
    }
    Ok(tree)
}

// The leaves of the first places.
fn leaves(heap: Global, count: u64) -> Result<Vec<Digest>, AllocError>
    ensures { IfOk result (λ v. v.items ≡ leaves_to count) }
{
    (0..count).map(leaf_at).collect(heap)
}

// A tree that was given all its leaves at once.
pub(crate) fn grown_at_once(heap: Global, count: u64) -> Result<Tree, TreeError>
    ensures { MatchResult result (λ t. leaves_of t ≡ leaves_to count) (λ e. e ≡ NoMemory) }
{
    let row = leaves(heap, count)?;
    let mut tree = Tree::new(heap);
    tree.extend(row.as_slice())?;
    Ok(tree)
}

// Makes and checks inclusion proofs of drawn places.
pub(crate) fn inclusion(tree: &Tree, proofs: u64) -> Result<Tally, TreeError> {
    let count = tree.count();
    let root = tree.root();
    let mut draws = Draws::new();
    let mut tally = Tally::default();
    for _ in 0..proofs {
        let place = draws.below(count);
        let path = tree.inclusion(place, count)?;
        let led = path_leads(count, place, &leaf_at(place), path.as_slice(), &root);
        tally = tally.with(led, path.len());
    }
    Ok(tally)
}

// Earlier states of the tree, at drawn counts.
pub(crate) fn earlier_states(
    heap: Global,
    tree: &Tree,
    proofs: u64,
) -> Result<Vec<Earlier>, TreeError> {
    let mut states = Vec::new(heap);
    let mut draws = Draws::new();
    for _ in 0..proofs {
        let count = draws.below(tree.count()).saturating_add(1);
        let root = tree.root_at(count)?;
        states.push(Earlier { count, root })?;
    }
    Ok(states)
}

// Makes and checks consistency proofs from earlier states.
pub(crate) fn consistency(tree: &Tree, states: &[Earlier]) -> Result<Tally, TreeError> {
    let count = tree.count();
    let root = tree.root();
    let mut tally = Tally::default();
    for state in states {
        let proof = tree.consistency(state.count, count)?;
        let led = consistency_leads(state.count, count, &state.root, &root, proof.as_slice());
        tally = tally.with(led, proof.len());
    }
    Ok(tally)
}
