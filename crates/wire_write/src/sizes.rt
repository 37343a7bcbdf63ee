// How many bytes a message takes, if it is well-formed.
ghost use Rattle.std.specs.Prelude.{◌≡◌, ◌+◌, ◌≤◌, length, MatchOption};
ghost use Rattle.wire_theory.specs.Messages.{FitsCertificate, FitsEvidence, FitsPath, FitsSettings};
ghost use Rattle.wire.specs.Sound.{Whole};
ghost use Rattle.wire.specs.Views.{certificate_of, digests_of, evidence_of, settings_of};
ghost use Rattle.wire_write.specs.Ready.{Writes, certificate_size};

use crate::signed::Signed;
use wire::{
    Certificate, Certificates, Digests, Evidence, Message, MonitorAnswer, Order, Sct, Settings,
    TreeHead,
};

// A promise takes as many bytes whatever it says.
pub(crate) const SCT_SIZE: usize = 106;

// The certificate's bytes and `more`.
fn with_certificate(certificate: Certificate, more: usize) -> Option<usize>
    requires { more ≤ 1024 }
    ensures { MatchOption result (FitsCertificate (certificate_of certificate.entry) → ⊥) (λ n. (n ≡ more + certificate_size certificate.entry) × FitsCertificate (certificate_of certificate.entry)) }
{
    Some(more + certificate.size()?)
}

// A path's digests and `more`; its count is one byte.
fn with_path(path: Digests, more: usize) -> Option<usize>
    requires { more ≤ 1024 }
    ensures { MatchOption result (Whole 32 path.entry.bytes.now → FitsPath (digests_of path.entry) → ⊥) (λ n. (n ≡ more + length path.entry.bytes.now) × FitsPath (digests_of path.entry) × Whole 32 path.entry.bytes.now) }
{
    let length = path.bytes.len();
    if length % 32 != 0 || length > 8160 {
        return None;
    }
    Some(more + length)
}

fn entries_size(certificates: Certificates) -> Option<usize>
    ensures { Writes (Message.Entries certificates.entry) result }
{
    certificates
        .are_whole()
        .then_some(1 + certificates.bytes.len())
}

fn convicts_size(head: TreeHead, digests: Digests) -> Option<usize>
    ensures { Writes (Message.Answer (MonitorAnswer.Convicts head digests.entry)) result }
{
    head.size()?;
    let length = digests.bytes.len();
    (length as u64 == 32 * head.count).then_some(116 + length)
}

fn included_size(head: TreeHead, place: u64, path: Digests) -> Option<usize>
    ensures { Writes (Message.Answer (MonitorAnswer.Included head place path.entry)) result }
{
    head.size()?;
    with_path(path, 125)
}

fn answer_size(answer: MonitorAnswer) -> Option<usize>
    ensures { Writes (Message.Answer answer.entry) result }
{
    match answer {
        MonitorAnswer::Included { head, place, path } => included_size(head, place, path),
        MonitorAnswer::NotDue => Some(2),
        MonitorAnswer::Convicts { head, digests } => convicts_size(head, digests),
        MonitorAnswer::NoHeadSoLate => Some(2),
    }
}

fn present_size(certificate: Certificate, first: Sct, second: Sct) -> Option<usize>
    ensures { Writes (Message.Present certificate.entry first second) result }
{
    with_certificate(certificate, 1 + 2 * SCT_SIZE)
}

fn bring_size(certificate: Certificate, sct: Sct) -> Option<usize>
    ensures { Writes (Message.Bring certificate.entry sct) result }
{
    with_certificate(certificate, 1 + SCT_SIZE)
}

fn order_size(order: Order) -> Option<usize>
    ensures { Writes (Message.Order order.entry) result }
{
    let length = order.name.len();
    (length <= 64).then_some(34 + length)
}

// At most 64 entries are asked for at once.
fn get_entries_size(from: u64, to: u64) -> Option<usize>
    ensures { Writes (Message.GetEntries from to) result }
{
    (to.saturating_sub(from) <= 64).then_some(17)
}

fn refused_size(number: u8) -> Option<usize>
    ensures { Writes (Message.Refused number) result }
{
    (1..=14).contains(&number).then_some(2)
}

// Two things that are signed, and as many digests as the head has entries.
pub(crate) fn evidence_size(evidence: Evidence) -> Option<usize>
    ensures { MatchOption result (Whole 32 evidence.entry.digests.bytes.now → FitsEvidence (evidence_of evidence.entry) → ⊥) (λ n. (n ≡ 220 + length evidence.entry.digests.bytes.now) × FitsEvidence (evidence_of evidence.entry) × Whole 32 evidence.entry.digests.bytes.now) }
{
    let Evidence { sct, head, digests } = evidence;
    let signed = sct.size()? + head.size()?;
    let length = digests.bytes.len();
    (length as u64 == 32 * head.count).then_some(signed + length)
}

pub(crate) fn settings_size(settings: Settings) -> Option<usize>
    ensures { MatchOption result (FitsSettings (settings_of settings) → ⊥) (λ n. (n ≡ 12) × FitsSettings (settings_of settings)) }
{
    let fits = (1..=86_400).contains(&settings.mmd)
        && (2..=86_400).contains(&settings.freshness)
        && (1..=31_536_000).contains(&settings.lifetime);
    fits.then_some(12)
}

pub(crate) fn size_of(message: Message) -> Option<usize>
    ensures { Writes message.entry result }
{
    match message {
        Message::Certificate(certificate) => certificate.size(),
        Message::Sct(sct) => sct.size(),
        Message::TreeHead(head) => head.size(),
        Message::RevocationList(list) => list.size(),
        Message::Order(order) => order_size(order),
        Message::Challenge(_) => Some(25),
        Message::Published { .. } => Some(9),
        Message::Submit(certificate) => with_certificate(certificate, 1),
        Message::GetHead => Some(1),
        Message::GetInclusion { .. } => Some(17),
        Message::GetConsistency { .. } => Some(17),
        Message::GetEntries { from, to } => get_entries_size(from, to),
        Message::Revoke { .. } => Some(73),
        Message::GetList => Some(1),
        Message::Bring { certificate, sct } => bring_size(certificate, sct),
        Message::Present {
            certificate,
            first,
            second,
        } => present_size(certificate, first, second),
        Message::Inclusion(path) => with_path(path, 2),
        Message::Consistency(path) => with_path(path, 2),
        Message::Entries(certificates) => entries_size(certificates),
        Message::Answer(answer) => answer_size(answer),
        Message::Accepted => Some(1),
        Message::Refused { number } => refused_size(number),
    }
}
