// Reads what is answered, by any party, behind its kind.
ghost use Rattle.std.specs.Prelude.{◌≡◌, ◌+◌, ◌*◌, [], ◌∷◌, length, slice_index, MatchOption};
ghost use Rattle.wire_theory.specs.Messages.{FitsPath, row};
ghost use Rattle.wire.specs.Reading.{OfAnswer, OfKind};
ghost use Rattle.wire.specs.Sound.{Whole};
ghost use Rattle.wire.specs.Views.{digests_of};

use crate::fields::Fields;
use crate::kind::{AnswerKind, Kind};
use crate::message::{Message, MonitorAnswer};
use crate::parts::{Certificates, Digests};

// A path and nothing more.
fn path(body: &[u8]) -> Option<Digests<'_>>
    ensures { MatchOption result (length body.now ≡ 1 + 32 * slice_index body.now 0 → ⊥) (λ d. (body.now ≡ length (digests_of d) ∷ row (digests_of d)) × FitsPath (digests_of d) × Whole 32 d.bytes.now) }
{
    let mut fields = Fields::of(body);
    let path = fields.path()?;
    fields.end()?;
    Some(path)
}

pub(crate) fn inclusion(body: &[u8]) -> Option<Message<'_>>
    ensures { OfKind Kind.Inclusion body.now result }
{
    let path = path(body)?;
    Some(Message::Inclusion(path))
}

pub(crate) fn consistency(body: &[u8]) -> Option<Message<'_>>
    ensures { OfKind Kind.Consistency body.now result }
{
    let path = path(body)?;
    Some(Message::Consistency(path))
}

pub(crate) fn entries(body: &[u8]) -> Option<Message<'_>>
    ensures { OfKind Kind.Entries body.now result }
{
    let certificates = Certificates { bytes: body };
    if !certificates.are_whole() {
        return None;
    }
    Some(Message::Entries(certificates))
}

fn included(body: &[u8]) -> Option<Message<'_>>
    ensures { OfAnswer AnswerKind.Included body.now result }
{
    let mut fields = Fields::of(body);
    let head = fields.head()?;
    let place = fields.number()?;
    let path = fields.path()?;
    fields.end()?;
    Some(Message::Answer(MonitorAnswer::Included { head, place, path }))
}

fn convicts(body: &[u8]) -> Option<Message<'_>>
    ensures { OfAnswer AnswerKind.Convicts body.now result }
{
    let mut fields = Fields::of(body);
    let head = fields.head()?;
    let digests = fields.digests(head.count as usize)?;
    fields.end()?;
    Some(Message::Answer(MonitorAnswer::Convicts { head, digests }))
}

// Nothing more than what was read of it, which says all. It makes the message in here, since whoever calls pays for room for it.
pub(crate) fn bare<'a, F: FnOnce() -> Message<'a>>(body: &[u8], message: F) -> Option<Message<'a>>
    requires { F.IsAlwaysCallable message }
    ensures { MatchOption result (body.now ≡ [] → ⊥) (λ m. (body.now ≡ []) × F.post message m) }
{
    if body.is_empty() {
        Some(message())
    } else {
        None
    }
}

pub(crate) fn monitor_answer(body: &[u8]) -> Option<Message<'_>>
    ensures { OfKind Kind.Answer body.now result }
{
    let (what, rest) = body.split_first()?;
    match AnswerKind::try_from(*what).ok()? {
        AnswerKind::Included => included(rest),
        AnswerKind::NotDue => bare(rest, || Message::Answer(MonitorAnswer::NotDue)),
        AnswerKind::Convicts => convicts(rest),
        AnswerKind::NoHeadSoLate => bare(rest, || Message::Answer(MonitorAnswer::NoHeadSoLate)),
    }
}

pub(crate) fn refused(body: &[u8]) -> Option<Message<'_>>
    ensures { OfKind Kind.Refused body.now result }
{
    let mut fields = Fields::of(body);
    let number = fields.byte()?;
    fields.end()?;
    if !(1..=14).contains(&number) {
        return None;
    }
    Some(Message::Refused { number })
}
