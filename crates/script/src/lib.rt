// The script language of `harbour`: a line has a command, a comment after '#', or nothing.
#![tactic(auto)]

mod command;
mod hex;
mod number;
mod read;
mod shown;
mod words;

pub use command::{Command, Fault};
pub use hex::{Hex, byte_from_hex, from_hex, hex_reads_back};
pub use number::decimal;
pub use read::{faults_are_faults, read_line};
pub use shown::Shown;
