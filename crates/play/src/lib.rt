// Plays a script's commands over the entries of one log.
#![tactic(auto)]

mod answer;
mod harbour;
mod perform;

pub use answer::{Answer, Refusal};
pub use harbour::Harbour;
