// Measures SHA-256: of standard input, and of nodes of a tree, one at a time and four at once.
#![tactic(auto)]

mod chains;
mod steps;

ghost use Rattle.std.specs.Prelude.{◌≡◌};
ghost use Rattle.bench_hash.specs.declared.chains.Chains.{Chains};
ghost use Rattle.bench_hash.specs.Steps.{stepped};

use crate::chains::Chains;
use anyhow::anyhow;
use bench_tools::milliseconds_since;
use script::Hex;
use sha256::Hasher;
use std::env;
use std::io::Read;
use std::num::nearest_u64_to_f64;
use std::time::Instant;

// How many bytes are read at once.
const PART: usize = 256 * 1024;

// Prints the digest of standard input.
fn measure_input(rt: &HostRuntime) -> anyhow::Result<()> {
    let mut part = vec![in rt.alloc(); 0u8; PART]?;
    let mut hasher = Hasher::new();
    // Every loop has to end: this one has an end out of reach.
    for _ in 0..u64::MAX {
        let count = rt.stdin().read(&mut part)?;
        if count == 0 {
            break;
        }
        hasher.update(&part[0..count]);
    }
    let bytes = hasher.finalize();
    println!(rt; "{}", Hex(&bytes))?;
    Ok(())
}

// Makes at least `count` nodes, and prints how long one took.
fn measure_nodes<F: Fn(Chains) -> Chains>(
    rt: &HostRuntime,
    count: u64,
    step: F,
) -> anyhow::Result<()>
    requires callable { F.IsAlwaysCallable step }
    requires steps { (c r : Chains) → F.post step c r → r ≡ stepped c }
{
    let steps = count.div_ceil(4);
    let start = Instant::now(rt)?;
    let chains = Chains::START.after(steps, step);
    let ms = milliseconds_since(rt, &start)?;
    let root = chains.root();
    let digest = Hex(&root.bytes);
    let each = ms * 1_000_000.0 / (4.0 * nearest_u64_to_f64(steps));
    println!(rt; "digest {digest}\nns-node {each:.2}")?;
    Ok(())
}

// What is measured, on little.
fn self_check(rt: &HostRuntime) -> anyhow::Result<()> {
    let mut hasher = Hasher::new();
    hasher.update(b"a");
    hasher.update(b"bc");
    let bytes = hasher.finalize();
    let abc = Hex(&bytes);
    let root = Chains::START.after(3, Chains::step).root();
    if root != Chains::START.after(3, Chains::step_at_once).root() {
        return Err(anyhow!("nodes one at a time and four at once differ"));
    }
    let nodes = Hex(&root.bytes);
    println!(rt; "abc {abc} nodes {nodes}")?;
    Ok(())
}

fn run(rt: &HostRuntime) -> anyhow::Result<()> {
    let mut args = env::args(rt)?;
    let _program = args.next();
    let Some(what) = args.next() else {
        return self_check(rt);
    };
    let count = match args.next() {
        Some(word) => word.parse::<u64>()?,
        None => 0,
    };
    match what.as_str() {
        "input" => measure_input(rt),
        "nodes" => measure_nodes(rt, count, Chains::step),
        "nodes4" => measure_nodes(rt, count, Chains::step_at_once),
        _ => Err(anyhow!(
            "bench_hash takes: input, nodes N or nodes4 N; or nothing, for a check of itself"
        )),
    }
}

fn main(rt: HostRuntime) -> anyhow::Result<()> {
    run(&rt)
}
