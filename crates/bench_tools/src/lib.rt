// What the programs that are measured share: how they tell times and draw numbers.
#![tactic(auto)]

mod draws;

pub use draws::Draws;
use std::io;
use std::rt::Clock;
use std::time::Instant;

pub fn milliseconds_since(clock: &impl Clock, start: &Instant) -> io::Result<f64> {
    Ok(start.elapsed(clock)?.as_secs_f64() * 1000.0)
}
