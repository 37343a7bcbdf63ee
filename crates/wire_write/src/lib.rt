// Writes messages: exactly the bytes that the definitions give, or nothing.
#![tactic(auto)]

mod keep;
mod owned;
mod put;
mod put_message;
mod put_signed;
mod signed;
mod sizes;
mod writer;

pub use owned::{OwnedCertificate, OwnedList};
pub use put::write_number;
pub use signed::{signed_part, write_signed, write_signed_revoke};
pub use writer::{write, write_evidence, write_settings};
