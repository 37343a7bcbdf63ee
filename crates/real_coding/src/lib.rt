// The coding in use, with SHA-256 and any scheme of signatures, meets what the system's theorems ask of a coding.
// No code: each function's contract names one theorem.
#![tactic(auto)]

ghost use Rattle.real_coding.specs.Claims.{ReadableIsWellFormed, RealIsSound, SealsIgnoreSeals, StandInIsSound, StandInSealsFit};

// It is sound with any scheme of signatures.
pub fn real_coding_is_sound()
    ensures { RealIsSound }
{}

// The certificates that it takes for readable are the well-formed ones.
pub fn readable_is_well_formed()
    ensures { ReadableIsWellFormed }
{}

// A seal is of all but the seal.
pub fn seals_ignore_seals()
    ensures { SealsIgnoreSeals }
{}

// One setup, with every part of it given, is sound, and what is signed in it can be well-formed.
pub fn stand_in_setup_is_sound()
    ensures sound { StandInIsSound }
    ensures seals { StandInSealsFit }
{}
