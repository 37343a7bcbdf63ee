// Messages in words.
#![tactic(auto)]

mod digits;
mod fields;
mod messages;

pub use digits::bytes_from_hex;
pub use messages::{message_in_words, refusal_in_words};
