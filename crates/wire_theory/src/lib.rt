// The messages and their bytes as definitions, with the theorems about them. No code: each function's contract names one theorem.
#![tactic(auto)]

ghost use Rattle.wire_theory.specs.Claims.{Canonical, DecodesBack, EachShaped, EvidenceCanonical, LeafTextsApart, SettingsCanonical, SignedApart};

// What is written is read as what it was.
pub fn decoding_gives_back()
    ensures { DecodesBack }
{}

// No two well-formed messages have the same bytes.
pub fn messages_are_canonical()
    ensures { Canonical }
{}

pub fn evidence_is_canonical()
    ensures { EvidenceCanonical }
{}

pub fn settings_are_canonical()
    ensures { SettingsCanonical }
{}

// The bytes of every message have the shape of its kind.
pub fn messages_are_shaped()
    ensures { EachShaped }
{}

// Two certificates that are not the same have not the same text under their leaf digests.
pub fn leaf_texts_are_apart()
    ensures { LeafTextsApart }
{}

// Two signed things that differ in kind or content never have the same signed bytes.
pub fn signed_bytes_are_apart()
    ensures { SignedApart }
{}
