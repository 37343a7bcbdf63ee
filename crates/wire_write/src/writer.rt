// Writes messages, evidence and settings behind what a vector holds; where one is refused, the vector's items are as they were. Each
// is three steps over its size and its parts; a trait for the three would be longer than they are.
ghost use Rattle.std.specs.Result.{MatchResult};
ghost use Rattle.wire_theory.specs.Messages.{FitsEvidence, FitsSettings, evidence_bytes, settings_bytes};
ghost use Rattle.wire.specs.Sound.{Whole};
ghost use Rattle.wire.specs.Views.{evidence_of, settings_of};
ghost use Rattle.wire_write.specs.Written.{Refuses, WritesOrRefuses, Written};

use crate::put::Put;
use crate::sizes::{evidence_size, settings_size, size_of};
use wire::{Evidence, Message, Refusal, Settings};

pub fn write(message: Message, out: &mut Vec<u8>) -> Result<(), Refusal>
    ensures { WritesOrRefuses message.entry out.old out.new result }
{
    let size = size_of(message).ok_or(Refusal::Unreadable)?;
    out.reserve(size)?;
    message.put(out);
    Ok(())
}

#[tactic(auto, unfolding(wire_theory::specs::Messages::evidence_bytes))]
pub fn write_evidence(evidence: Evidence, out: &mut Vec<u8>) -> Result<(), Refusal>
    ensures { MatchResult result (λ _. Written out.old out.new (evidence_bytes (evidence_of evidence.entry)) (FitsEvidence (evidence_of evidence.entry))) (Refuses out.old out.new (Whole 32 evidence.entry.digests.bytes.now → FitsEvidence (evidence_of evidence.entry) → ⊥)) }
{
    let size = evidence_size(evidence).ok_or(Refusal::Unreadable)?;
    out.reserve(size)?;
    evidence.sct.put(out);
    evidence.head.put(out);
    evidence.digests.put(out);
    Ok(())
}

#[tactic(auto, unfolding(wire_theory::specs::Messages::settings_bytes))]
pub fn write_settings(settings: Settings, out: &mut Vec<u8>) -> Result<(), Refusal>
    ensures { MatchResult result (λ _. Written out.old out.new (settings_bytes (settings_of settings)) (FitsSettings (settings_of settings))) (Refuses out.old out.new (FitsSettings (settings_of settings) → ⊥)) }
{
    let size = settings_size(settings).ok_or(Refusal::Unreadable)?;
    out.reserve(size)?;
    settings.mmd.put(out);
    settings.freshness.put(out);
    settings.lifetime.put(out);
    Ok(())
}
