// Reads any bytes as a message, as evidence or as settings, to the end or to the first fault.
ghost use Rattle.std.specs.Prelude.{◌≡◌, ◌<◌, ◌∷◌, Some, MatchOption, MatchResult};
ghost use Rattle.wire_theory.specs.Messages.{Encodes, FitsEvidence, FitsSettings, evidence_bytes, settings_bytes};
ghost use Rattle.wire_theory.specs.Shapes.{EvidenceShape, SettingsShape, Shaped};
ghost use Rattle.wire.specs.Kinds.{kind_number};
ghost use Rattle.wire.specs.Reading.{Reads, ReadsOrRefuses};
ghost use Rattle.wire.specs.Refusals.{refusal_number};
ghost use Rattle.wire.specs.Views.{evidence_of, settings_of};

use crate::evidence::Evidence;
use crate::fields::Fields;
use crate::kind::Kind;
use crate::message::Message;
use crate::read_answers::{bare, consistency, entries, inclusion, monitor_answer, refused};
use crate::read_requests::{
    bring, challenge, get_consistency, get_entries, get_inclusion, order, present, published,
    revoke, submit,
};
use crate::read_signed::{certificate, revocation_list, sct, tree_head};
use crate::refusal::Refusal;
use crate::settings::Settings;

// The kind that the first byte stands for, and what is behind it.
fn kind_and_body(s: &[u8]) -> Option<(Kind, &[u8])>
    ensures { MatchOption result (Shaped s.now → ⊥) (λ p. s.now ≡ kind_number p.0 ∷ p.1.now) }
{
    let (first, body) = s.split_first()?;
    let kind = Kind::try_from(*first).ok()?;
    Some((kind, body))
}

#[tactic(auto, using(crate::proofs::Unknown::of_kind))]
fn message(s: &[u8]) -> Option<Message<'_>>
    ensures { MatchOption result (Shaped s.now → ⊥) (Reads s.now) }
{
    let (kind, body) = kind_and_body(s)?;
    match kind {
        Kind::Certificate => certificate(body),
        Kind::Sct => sct(body),
        Kind::TreeHead => tree_head(body),
        Kind::RevocationList => revocation_list(body),
        Kind::Order => order(body),
        Kind::Challenge => challenge(body),
        Kind::Published => published(body),
        Kind::Submit => submit(body),
        Kind::GetHead => bare(body, || Message::GetHead),
        Kind::GetInclusion => get_inclusion(body),
        Kind::GetConsistency => get_consistency(body),
        Kind::GetEntries => get_entries(body),
        Kind::Revoke => revoke(body),
        Kind::GetList => bare(body, || Message::GetList),
        Kind::Bring => bring(body),
        Kind::Present => present(body),
        Kind::Inclusion => inclusion(body),
        Kind::Consistency => consistency(body),
        Kind::Entries => entries(body),
        Kind::Answer => monitor_answer(body),
        Kind::Accepted => bare(body, || Message::Accepted),
        Kind::Refused => refused(body),
    }
}

// The message that these bytes are, to the end; else they are those of no message.
pub fn read(s: &[u8]) -> Result<Message<'_>, Refusal>
    ensures { ReadsOrRefuses s.now result }
{
    // By `let .. else`, as was asked for, and not by `ok_or`, which moves the whole message once more.
    let Some(message) = message(s) else {
        return Err(Refusal::Unreadable);
    };
    Ok(message)
}

// A promise, a head, and as many digests as the head has entries. Inlined with its one caller, so that whoever asks for a part of it
// doesn't pay for copies of the others.
#[inline(always)]
fn evidence(s: &[u8]) -> Option<Evidence<'_>>
    ensures { MatchOption result (EvidenceShape s.now → ⊥) (λ e. Encodes evidence_bytes FitsEvidence s.now (evidence_of e)) }
{
    let mut fields = Fields::of(s);
    let sct = fields.sct()?;
    let head = fields.head()?;
    let digests = fields.digests(head.count as usize)?;
    fields.end()?;
    Some(Evidence { sct, head, digests })
}

#[inline(always)]
pub fn read_evidence(s: &[u8]) -> Result<Evidence<'_>, Refusal>
    ensures { MatchResult result (λ e. Encodes evidence_bytes FitsEvidence s.now (evidence_of e)) (λ f. (refusal_number f ≡ Some 1) × ((e : _) → Encodes evidence_bytes FitsEvidence s.now e → ⊥)) }
{
    let Some(evidence) = evidence(s) else {
        return Err(Refusal::Unreadable);
    };
    Ok(evidence)
}

fn settings(s: &[u8]) -> Option<Settings>
    ensures { MatchOption result (SettingsShape s.now → ⊥) (λ t. Encodes settings_bytes FitsSettings s.now (settings_of t)) }
{
    let mut fields = Fields::of(s);
    let settings = Settings {
        mmd: fields.word_within(1, 86_400)?,
        freshness: fields.word_within(2, 86_400)?,
        lifetime: fields.word_within(1, 31_536_000)?,
    };
    fields.end()?;
    Some(settings)
}

pub fn read_settings(s: &[u8]) -> Result<Settings, Refusal>
    ensures { MatchResult result (λ t. Encodes settings_bytes FitsSettings s.now (settings_of t)) (λ f. (refusal_number f ≡ Some 1) × ((t : _) → Encodes settings_bytes FitsSettings s.now t → ⊥)) }
{
    settings(s).ok_or(Refusal::Unreadable)
}
