// Cuts every example at every length and changes every byte of it in several ways, reads each, and writes what was read again. What
// is printed is compared with what another program made of the formats counts.
#![tactic(auto)]

mod examples;
mod tally;
mod worst;

use crate::examples::{EXAMPLES, Example};
use crate::tally::Tally;
use crate::worst::{longest_name, most_digests, most_serials};
use anyhow::Context;
use show::bytes_from_hex;
use std::alloc::Global;

fn cut(heap: Global, s: &[u8]) -> Tally {
    let mut tally = Tally::default();
    // The length is what is tried.
    for n in 0..s.len() {
        tally.add(heap, &s[..n]);
    }
    tally
}

// Each byte in six other ways, one at a time.
fn changed(heap: Global, s: &mut [u8]) -> Tally {
    let mut tally = Tally::default();
    // Each change is seen by the reader in the whole, so the bytes aren't lent out one by one.
    for i in 0..s.len() {
        let old = s[i];
        for other in [
            old ^ 1,
            old ^ 128,
            0,
            255,
            old.wrapping_add(1),
            old.wrapping_add(16),
        ] {
            s[i] = other;
            tally.add(heap, s);
        }
        s[i] = old;
    }
    tally
}

// Prints what came of one example, and gives how many answers differ.
fn run_example(rt: &HostRuntime, example: &Example) -> anyhow::Result<u64> {
    let heap = rt.alloc();
    let mut bytes = bytes_from_hex(heap, example.digits.as_bytes())?.context(
        "an example isn't in hexadecimal digits",
    )?;
    let mut whole = Tally::default();
    whole.add(heap, &bytes);
    let cut = cut(heap, &bytes);
    let length = bytes.len();
    let changed = changed(heap, &mut bytes);
    let name = example.name;
    let (a, b) = (cut.accepted, cut.refused);
    let (c, d) = (changed.accepted, changed.refused);
    println!(rt;
        "{name}: {length} bytes; cut {a} accepted {b} refused; changed {c} accepted {d} refused"
    )?;
    let missing = u64::from(whole.accepted == 0);
    Ok(
        missing
            .saturating_add(cut.wrong)
            .saturating_add(changed.wrong),
    )
}

// Prints what came of bytes of a worst size.
fn run_worst(rt: &HostRuntime, name: &str, s: &[u8]) -> anyhow::Result<u64> {
    let mut tally = Tally::default();
    tally.add(rt.alloc(), s);
    let length = s.len();
    if tally.accepted == 1 {
        println!(rt; "{name}: {length} bytes read and written back")?;
    } else {
        println!(rt; "{name}: refused")?;
    }
    Ok(tally.wrong)
}

fn run(rt: &HostRuntime) -> anyhow::Result<()> {
    let heap = rt.alloc();
    let mut differ = 0u64;
    for example in &EXAMPLES {
        differ = differ.saturating_add(run_example(rt, example)?);
    }
    // Each is made when those before it are done with, so that they are told even where memory is wanting for it.
    differ = differ.saturating_add(run_worst(rt, "longest name", &longest_name(heap)?)?);
    differ = differ.saturating_add(run_worst(rt, "most serials", &most_serials(heap, 1024)?)?);
    differ = differ.saturating_add(run_worst(rt, "most digests", &most_digests(heap, 65536)?)?);
    let serials = most_serials(heap, 1025)?;
    differ = differ.saturating_add(run_worst(rt, "one serial too many", &serials)?);
    let digests = most_digests(heap, 65535)?;
    differ = differ.saturating_add(run_worst(rt, "one digest too few", &digests)?);
    println!(rt; "{differ} answers differ")?;
    Ok(())
}

fn main(rt: HostRuntime) -> anyhow::Result<()> {
    run(&rt)
}
