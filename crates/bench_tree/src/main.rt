// Measures a tree: how long it takes to grow, and to make and check proofs of inclusion and of consistency.
#![tactic(auto)]

mod leaf;
mod tally;
mod work;

use crate::work::{consistency, earlier_states, grown, grown_at_once, inclusion};
use anyhow::anyhow;
use bench_tools::milliseconds_since;
use script::Hex;
use std::env;
use std::time::Instant;

// How many proofs of each kind are made.
const PROOFS: u64 = 10_000;

// Prints what was done in lines of a name and a value; those that tell a time begin with ms.
fn measure(rt: &HostRuntime, count: u64) -> anyhow::Result<()> {
    let heap = rt.alloc();

    let start = Instant::now(rt)?;
    let tree = grown(heap, count)?;
    let ms_grow = milliseconds_since(rt, &start)?;

    let start = Instant::now(rt)?;
    let same = grown_at_once(heap, count)?;
    let ms_grow_at_once = milliseconds_since(rt, &start)?;
    let root = tree.root();
    if same.root() != root {
        return Err(anyhow!(
            "a tree that grew leaf by leaf and one that was given them at once differ"
        ));
    }

    let start = Instant::now(rt)?;
    let paths = inclusion(&tree, PROOFS)?;
    let ms_inclusion = milliseconds_since(rt, &start)?;

    let states = earlier_states(heap, &tree, PROOFS)?;
    let start = Instant::now(rt)?;
    let growths = consistency(&tree, states.as_slice())?;
    let ms_consistency = milliseconds_since(rt, &start)?;

    let root = Hex(&root.bytes);
    println!(rt; "leaves {count}")?;
    println!(rt; "root {root}")?;
    println!(rt; "inclusion {paths}")?;
    println!(rt; "consistency {growths}")?;
    println!(rt; "ms-grow {ms_grow:.3}")?;
    println!(rt; "ms-grow-at-once {ms_grow_at_once:.3}")?;
    println!(rt; "ms-inclusion {ms_inclusion:.3}")?;
    println!(rt; "ms-consistency {ms_consistency:.3}")?;
    Ok(())
}

// What is measured, on little.
fn self_check(rt: &HostRuntime) -> anyhow::Result<()> {
    let tree = grown(rt.alloc(), 1000)?;
    let root = tree.root();
    let root = Hex(&root.bytes);
    let paths = inclusion(&tree, 100)?;
    let states = earlier_states(rt.alloc(), &tree, 100)?;
    let growths = consistency(&tree, states.as_slice())?;
    println!(rt; "root {root} inclusion {paths} consistency {growths}")?;
    Ok(())
}

fn run(rt: &HostRuntime) -> anyhow::Result<()> {
    let mut args = env::args(rt)?;
    let _program = args.next();
    match args.next() {
        Some(word) => measure(rt, word.parse::<u64>()?),
        None => self_check(rt),
    }
}

fn main(rt: HostRuntime) -> anyhow::Result<()> {
    run(&rt)
}
