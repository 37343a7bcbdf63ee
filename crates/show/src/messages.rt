// Whole messages in words.
ghost use Rattle.std.specs.Prelude.{◌≡◌, ◌++◌, IfOk, Some, string_bytes, codes};
ghost use Rattle.wire_theory.specs.Shapes.{EntriesShape};
ghost use Rattle.wire.specs.declared.message.Message.TheVariants as message;
ghost use Rattle.wire.specs.Sound.{Sound};
ghost use Rattle.wire.specs.Views.{answer_of, certificates_of, message_of};
ghost use Rattle.show.specs.Words.{answer_text, listed_certificates, message_text, refusal_text};

use crate::fields::{InWords, Name};
use script::Hex;
use std::alloc::{AllocError, Global};
use std::fmt;
use wire::{Certificates, Challenge, Message, MonitorAnswer, Order, Refusal};

impl fmt::Display for InWords<&Order<'_>> {
    ghost output = { λ o. Some (message_text (message_of (message.Order o.0.now))) };

    fn fmt<W: fmt::Write>(&self, f: &mut fmt::Formatter<W>) -> fmt::Result {
        let order = self.0;
        write!(
            f,
            "order for {} with key {}",
            Name(order.name),
            Hex(&order.key.bytes)
        )
    }
}

impl fmt::Display for InWords<&Challenge> {
    ghost output = { λ o. Some (message_text (message_of (message.Challenge o.0.now))) };

    fn fmt<W: fmt::Write>(&self, f: &mut fmt::Formatter<W>) -> fmt::Result {
        let challenge = self.0;
        let nonce = Hex(&challenge.nonce.bytes);
        write!(
            f,
            "challenge with serial {} and nonce {nonce}",
            challenge.serial
        )
    }
}

impl fmt::Display for InWords<&MonitorAnswer<'_>> {
    ghost output = { λ a. Some (answer_text (answer_of a.0.now)) };

    fn fmt<W: fmt::Write>(&self, f: &mut fmt::Formatter<W>) -> fmt::Result {
        match self.0 {
            MonitorAnswer::Included { head, place, path } => write!(
                f,
                "included at place {place} below the {}, path of {}",
                InWords(head),
                InWords(path)
            ),
            MonitorAnswer::NotDue => f.write_str("not due"),
            MonitorAnswer::Convicts { head, digests } => {
                write!(f, "what convicts: {}, {}", InWords(head), InWords(digests))
            }
            MonitorAnswer::NoHeadSoLate => f.write_str("no head so late"),
        }
    }
}

// Certificates, each on a line. No `Display`: it says what it makes only of what can be, and an output takes no premise.
fn entries_in_words(heap: Global, certificates: &Certificates) -> Result<String, AllocError>
    ensures { IfOk result (λ t. EntriesShape certificates.now.bytes.now → string_bytes t ≡ codes "entries:" ++ listed_certificates (certificates_of certificates.now)) }
{
    let mut text = String::from_str(heap, "entries:")?;
    let mut rest = *certificates;
    while let Some((first, after)) = rest.split_first() {
        write!(text, "\n{}", InWords(&first))?;
        rest = after;
    }
    Ok(text)
}

// A type with a `Display` would be no shorter.
fn refused_in_words(heap: Global, number: u8) -> Result<String, AllocError>
    ensures { IfOk result (λ t. string_bytes t ≡ message_text (message_of (Message.Refused number))) }
{
    match Refusal::from_number(number) {
        Some(refusal) => format!(in heap; "refused, {number}: {refusal}"),
        None => format!(in heap; "refused, {number}: no cause has this number"),
    }
}

// Any message in words. No `Display`, for the certificates in it.
pub fn message_in_words(heap: Global, message: &Message) -> Result<String, AllocError>
    ensures { IfOk result (λ t. Sound message.now → string_bytes t ≡ message_text (message_of message.now)) }
{
    match message {
        Message::Certificate(certificate) => format!(in heap; "{}", InWords(certificate)),
        Message::Sct(sct) => format!(in heap; "{}", InWords(sct)),
        Message::TreeHead(head) => format!(in heap; "{}", InWords(head)),
        Message::RevocationList(list) => format!(in heap; "{}", InWords(list)),
        Message::Order(order) => format!(in heap; "{}", InWords(order)),
        Message::Challenge(challenge) => format!(in heap; "{}", InWords(challenge)),
        Message::Published { serial } => format!(in heap;
            "published: the response to the challenge with serial {serial}"
        ),
        Message::Submit(certificate) => format!(in heap; "submit the {}", InWords(certificate)),
        Message::GetHead => String::from_str(heap, "get the head"),
        Message::GetInclusion { place, count } => format!(in heap;
            "get the path of place {place} among {count}"
        ),
        Message::GetConsistency { from, to } => format!(in heap;
            "get the consistency proof from {from} to {to}"
        ),
        Message::GetEntries { from, to } => format!(in heap;
            "get the entries from {from} to before {to}"
        ),
        Message::Revoke { serial, signature } => format!(in heap;
            "revoke serial {serial}, signature {}",
            Hex(&signature.bytes)
        ),
        Message::GetList => String::from_str(heap, "get the revocation list"),
        Message::Bring { certificate, sct } => format!(in heap;
            "brought: {}; {}",
            InWords(certificate),
            InWords(sct)
        ),
        Message::Present {
            certificate,
            first,
            second,
        } => format!(in heap;
            "to accept: {}; {}; {}",
            InWords(certificate),
            InWords(first),
            InWords(second)
        ),
        Message::Inclusion(path) => format!(in heap; "path of {}", InWords(path)),
        Message::Consistency(path) => format!(in heap; "consistency proof of {}", InWords(path)),
        Message::Entries(certificates) => entries_in_words(heap, certificates),
        Message::Answer(answer) => format!(in heap; "{}", InWords(answer)),
        Message::Accepted => String::from_str(heap, "accepted"),
        Message::Refused { number } => refused_in_words(heap, *number),
    }
}

// A refusal's number and cause; want of memory has no number. What a refusal displays is its cause alone.
pub fn refusal_in_words(heap: Global, refusal: Refusal) -> Result<String, AllocError>
    ensures { IfOk result (λ t. string_bytes t ≡ refusal_text refusal) }
{
    match refusal.code() {
        Some(number) => format!(in heap; "refused, {number}: {refusal}"),
        None => refusal.to_string(heap),
    }
}
