// The model: who may do what, what is guaranteed of every world that can be reached, and the proof. No code: each function's contract names one theorem.
#![tactic(auto)]

ghost use Rattle.model.specs.Cases.{CasesHold};
ghost use Rattle.model.specs.Guarantees.{AcceptedIsSeen, EveryWorldIsSafe};

// Whatever dishonest authorities and logs do, the guarantees hold in every world that can be reached.
pub fn every_world_is_safe()
    ensures { EveryWorldIsSafe }
{}

// What was accepted comes in sight of every monitor in both logs that promised it, or convicts the log.
pub fn accepted_is_seen()
    ensures { AcceptedIsSeen }
{}

// The worked cases are runs of the model, and end as they should.
pub fn worked_cases_hold()
    ensures { CasesHold }
{}
