// Reads what is asked, of any party, behind its kind.
ghost use Rattle.std.specs.Prelude.{◌≡◌, ◌++◌, length, MatchOption};
ghost use Rattle.wire_theory.specs.Bytes.{big};
ghost use Rattle.wire.specs.Reading.{OfKind};

use crate::fields::Fields;
use crate::kind::Kind;
use crate::message::{Challenge, Message, Order};

pub(crate) fn order(body: &[u8]) -> Option<Message<'_>>
    ensures { OfKind Kind.Order body.now result }
{
    let mut fields = Fields::of(body);
    let order = Order {
        name: fields.name()?,
        key: fields.key()?,
    };
    fields.end()?;
    Some(Message::Order(order))
}

pub(crate) fn challenge(body: &[u8]) -> Option<Message<'_>>
    ensures { OfKind Kind.Challenge body.now result }
{
    let mut fields = Fields::of(body);
    let challenge = Challenge {
        serial: fields.number()?,
        nonce: fields.nonce()?,
    };
    fields.end()?;
    Some(Message::Challenge(challenge))
}

pub(crate) fn published(body: &[u8]) -> Option<Message<'_>>
    ensures { OfKind Kind.Published body.now result }
{
    let mut fields = Fields::of(body);
    let serial = fields.number()?;
    fields.end()?;
    Some(Message::Published { serial })
}

pub(crate) fn submit(body: &[u8]) -> Option<Message<'_>>
    ensures { OfKind Kind.Submit body.now result }
{
    let mut fields = Fields::of(body);
    let certificate = fields.certificate()?;
    fields.end()?;
    Some(Message::Submit(certificate))
}

// Two numbers and nothing more.
fn two_numbers(body: &[u8]) -> Option<(u64, u64)>
    ensures { MatchOption result (length body.now ≡ 16 → ⊥) (λ p. body.now ≡ big 8 p.0 ++ big 8 p.1) }
{
    let mut fields = Fields::of(body);
    let first = fields.number()?;
    let second = fields.number()?;
    fields.end()?;
    Some((first, second))
}

pub(crate) fn get_inclusion(body: &[u8]) -> Option<Message<'_>>
    ensures { OfKind Kind.GetInclusion body.now result }
{
    let (place, count) = two_numbers(body)?;
    Some(Message::GetInclusion { place, count })
}

pub(crate) fn get_consistency(body: &[u8]) -> Option<Message<'_>>
    ensures { OfKind Kind.GetConsistency body.now result }
{
    let (from, to) = two_numbers(body)?;
    Some(Message::GetConsistency { from, to })
}

// At most 64 entries are asked for at once.
pub(crate) fn get_entries(body: &[u8]) -> Option<Message<'_>>
    ensures { OfKind Kind.GetEntries body.now result }
{
    let (from, to) = two_numbers(body)?;
    if to.saturating_sub(from) > 64 {
        return None;
    }
    Some(Message::GetEntries { from, to })
}

pub(crate) fn revoke(body: &[u8]) -> Option<Message<'_>>
    ensures { OfKind Kind.Revoke body.now result }
{
    let mut fields = Fields::of(body);
    let serial = fields.number()?;
    let signature = fields.signature()?;
    fields.end()?;
    Some(Message::Revoke { serial, signature })
}

pub(crate) fn bring(body: &[u8]) -> Option<Message<'_>>
    ensures { OfKind Kind.Bring body.now result }
{
    let mut fields = Fields::of(body);
    let certificate = fields.certificate()?;
    let sct = fields.sct()?;
    fields.end()?;
    Some(Message::Bring { certificate, sct })
}

pub(crate) fn present(body: &[u8]) -> Option<Message<'_>>
    ensures { OfKind Kind.Present body.now result }
{
    let mut fields = Fields::of(body);
    let certificate = fields.certificate()?;
    let first = fields.sct()?;
    let second = fields.sct()?;
    fields.end()?;
    Some(Message::Present {
        certificate,
        first,
        second,
    })
}
