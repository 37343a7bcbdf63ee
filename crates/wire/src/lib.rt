// The messages as they are sent: their types, and a reader that takes any bytes.
#![tactic(auto)]

mod certificate;
mod evidence;
mod field;
mod fields;
mod kind;
mod list;
mod log;
mod message;
mod parts;
mod read_answers;
mod read_requests;
mod read_signed;
mod reader;
mod refusal;
mod seal;
mod settings;

pub use certificate::Certificate;
pub use evidence::Evidence;
pub use kind::{AnswerKind, Kind};
pub use list::RevocationList;
pub use log::{Sct, TreeHead};
pub use message::{Challenge, Message, MonitorAnswer, Order};
pub use parts::{Certificates, Digests, EachDigest, EachSerial, Serials};
pub use reader::{read, read_evidence, read_settings};
pub use refusal::{Part, Refusal};
pub use seal::{Key, Nonce, Signature, equality_tells_seals_apart};
pub use settings::Settings;
