// Every run of the parties over any network is a run of the model, or two texts that were hashed in it collide; and so what is guaranteed holds in the parties' own terms.
// No code: each function's contract names one theorem.
#![tactic(auto)]

ghost use Rattle.system.specs.Assured.{AcceptedIsSeen, AcceptedWasIssued, HeadIsTaken, HonestIsSeen, IssuedWasAskedFor, NeverConvicted, OfEveryRun, OneCertificate, RevokedIsNotAccepted};
ghost use Rattle.system.specs.Stands.{Refines};

// Every run reaches a state that stands for a world that the model reaches.
pub fn runs_refine_the_model()
    ensures { Refines }
{}

// What was accepted, an honest issuer signed.
pub fn accepted_was_issued()
    ensures { OfEveryRun AcceptedWasIssued }
{}

// What an honest authority signed, the owner of the name asked for, and published the response to its very challenge.
pub fn issued_was_asked_for()
    ensures { OfEveryRun IssuedWasAskedFor }
{}

// An honest authority signs one certificate to a serial.
pub fn one_certificate_to_a_serial()
    ensures { OfEveryRun OneCertificate }
{}

// What was accepted comes in sight of every monitor, or convicts the log that promised it.
pub fn accepted_is_seen()
    ensures { AcceptedIsSeen }
{}

// In an honest log it comes in sight.
pub fn honest_logs_show_it()
    ensures { OfEveryRun HonestIsSeen }
{}

// What an honest authority revoked is accepted for no longer than a list is fresh.
pub fn revoked_is_not_accepted()
    ensures { OfEveryRun RevokedIsNotAccepted }
{}

// Nothing convicts an honest log.
pub fn honest_logs_are_never_convicted()
    ensures { NeverConvicted }
{}

// Every head that an honest log signs, a monitor takes.
pub fn honest_heads_are_taken()
    ensures { OfEveryRun HeadIsTaken }
{}
