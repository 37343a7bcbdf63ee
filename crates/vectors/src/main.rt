// Runs published test vectors, of SHA-256 and of the Merkle tree, and compares each with what was published.
#![tactic(auto)]

mod hash_vectors;
mod tally;
mod tree_vectors;

use crate::hash_vectors::run_hash_vectors;
use crate::tally::Tally;
use crate::tree_vectors::run_tree_vectors;
use anyhow::anyhow;

fn run(rt: &HostRuntime) -> anyhow::Result<()> {
    let mut tally = Tally::new();
    run_hash_vectors(rt, &mut tally)?;
    run_tree_vectors(rt, &mut tally)?;
    let agree = tally.agree;
    let all = tally.all;
    println!(rt; "{agree} of {all} vectors agree")?;
    if agree != all {
        return Err(anyhow!("a vector doesn't agree"));
    }
    Ok(())
}

fn main(rt: HostRuntime) -> anyhow::Result<()> {
    run(&rt)
}
