// How many of the bytes that were tried came to what, and what the reader is held to.
use std::alloc::Global;
use wire::{Message, Refusal, read};
use wire_write::{signed_part, write, write_signed};

enum Outcome {
    Accepted,
    Refused,
    // read as a message that has other bytes, or refused for another cause
    Wrong,
}

// The bytes that are signed are those before the signature.
fn is_signed_part(heap: Global, message: Message, s: &[u8]) -> bool {
    let mut out = Vec::new(heap);
    let written = match message {
        Message::Certificate(certificate) => write_signed(certificate, &mut out),
        Message::Sct(sct) => write_signed(sct, &mut out),
        Message::TreeHead(head) => write_signed(head, &mut out),
        Message::RevocationList(list) => write_signed(list, &mut out),
        _ => return true,
    };
    written.is_ok() && signed_part(s).is_some_and(|part| part == out.as_slice())
}

// What is read is written as the same bytes, and what isn't is unreadable.
fn outcome_of(heap: Global, s: &[u8]) -> Outcome {
    match read(s) {
        Ok(message) => {
            let mut out = Vec::new(heap);
            let is_same = write(message, &mut out).is_ok() && out.as_slice() == s;
            if is_same && is_signed_part(heap, message, s) {
                Outcome::Accepted
            } else {
                Outcome::Wrong
            }
        }
        Err(Refusal::Unreadable) => Outcome::Refused,
        Err(_) => Outcome::Wrong,
    }
}

#[derive(Clone, Copy, Default)]
pub(crate) struct Tally {
    pub(crate) accepted: u64,
    pub(crate) refused: u64,
    pub(crate) wrong: u64,
}

impl Tally {
    pub(crate) fn add(&mut self, heap: Global, s: &[u8]) {
        match outcome_of(heap, s) {
            Outcome::Accepted => self.accepted = self.accepted.saturating_add(1),
            Outcome::Refused => self.refused = self.refused.saturating_add(1),
            Outcome::Wrong => self.wrong = self.wrong.saturating_add(1),
        }
    }
}
