// Measures how fast certificates and revocation lists are read and written.
#![tactic(auto)]

mod work;

use crate::work::{certificate, read_all, revocation_list, write_all};
use anyhow::anyhow;
use bench_tools::milliseconds_since;
use std::env;
use std::num::nearest_u64_to_f64;
use std::time::Instant;

// Megabytes in a second.
fn rate(bytes: u64, ms: f64) -> f64 {
    nearest_u64_to_f64(bytes) / 1000.0 / ms
}

// Reads and writes a message many times, and prints the rates.
fn measure(rt: &HostRuntime, name: &str, s: &[u8], times: u64) -> anyhow::Result<()> {
    let start = Instant::now(rt)?;
    let read = read_all(s, times);
    let ms_read = milliseconds_since(rt, &start)?;
    let start = Instant::now(rt)?;
    let written = write_all(rt.alloc(), s, times);
    let ms_write = milliseconds_since(rt, &start)?;
    if read != written {
        return Err(anyhow!("what was read and what was written differ"));
    }
    let in_mb = rate(read, ms_read);
    let out_mb = rate(written, ms_write);
    println!(rt; "{name}: read {in_mb:.0} MB/s, written {out_mb:.0} MB/s")?;
    Ok(())
}

// What is measured, on little.
fn self_check(rt: &HostRuntime) -> anyhow::Result<()> {
    let heap = rt.alloc();
    let certificate = certificate(heap)?;
    let list = revocation_list(heap, 1024)?;
    let a = read_all(&certificate, 3);
    let b = write_all(heap, &certificate, 3);
    let c = read_all(&list, 3);
    let d = write_all(heap, &list, 3);
    println!(rt; "certificates {a} {b} lists {c} {d}")?;
    Ok(())
}

fn run(rt: &HostRuntime) -> anyhow::Result<()> {
    let mut args = env::args(rt)?;
    let _program = args.next();
    let Some(word) = args.next() else {
        return self_check(rt);
    };
    let times = word.parse::<u64>()?;
    let heap = rt.alloc();
    measure(rt, "certificates", &certificate(heap)?, times)?;
    measure(
        rt,
        "lists of 1024 serials",
        &revocation_list(heap, 1024)?,
        times / 50,
    )
}

fn main(rt: HostRuntime) -> anyhow::Result<()> {
    run(&rt)
}
