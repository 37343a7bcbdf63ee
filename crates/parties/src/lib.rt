// The parties as definitions: for each a view, and for each message and each tick the view after it, the answer, and what is sent. No code: each function's contract names one theorem.
#![tactic(auto)]

ghost use Rattle.parties.specs.AuthorityInvariants.{AuthorityInvariantsHold};
ghost use Rattle.parties.specs.Cases.{CasesHold};
ghost use Rattle.parties.specs.Granting.{GrantsWhatIsDue};
ghost use Rattle.parties.specs.Handling.{EarlierTicksChangeNothing, KindsOfOthers, RefusalsChangeNothing};
ghost use Rattle.parties.specs.Judging.{JudgesRight};
ghost use Rattle.parties.specs.LogAnswers.{LogsAnswerRight};
ghost use Rattle.parties.specs.LogInvariants.{LogInvariantsHold};
ghost use Rattle.parties.specs.MonitorAnswers.{AnswersAreTrue};
ghost use Rattle.parties.specs.MonitorInvariants.{MonitorInvariantsHold};
ghost use Rattle.parties.specs.RelyingInvariants.{RelyingInvariantsHold};

// Whatever message comes, in whatever view: what is refused changes nothing.
pub fn refusals_change_nothing()
    ensures { RefusalsChangeNothing }
{}

// And what is due is not refused: orders, certificates, lists, revocations, promises, heads and acceptances.
pub fn grants_what_is_due()
    ensures { GrantsWhatIsDue }
{}

// A tick below the last changes nothing.
pub fn earlier_ticks_change_nothing()
    ensures { EarlierTicksChangeNothing }
{}

// Kinds that are not for a party are refused as unknown.
pub fn kinds_of_others_are_refused()
    ensures { KindsOfOthers }
{}

// A verdict on evidence is given exactly if what it says is so: that all parts are, or which is the first that isn't.
pub fn judges_right()
    ensures { JudgesRight }
{}

// The worked cases hold.
pub fn worked_cases_hold()
    ensures { CasesHold }
{}

// A log's entries only grow and none stands twice; and whatever it promised is among them at every later tick.
pub fn log_invariants_hold()
    ensures { LogInvariantsHold }
{}

// A log's heads, inclusion and consistency proofs and entries are right.
pub fn logs_answer_right()
    ensures { LogsAnswerRight }
{}

// A relying party's list of an authority never gets older, and all that it accepted met all checks then.
pub fn relying_invariants_hold()
    ensures { RelyingInvariantsHold }
{}

// An authority's serials rise and none is drawn twice; it issues once to each; what it revoked stays so; and its lists rise, are exact and have room.
pub fn authority_invariants_hold()
    ensures { AuthorityInvariantsHold }
{}

// A monitor has looked through all entries below each log's head that it has, and found exactly those with its name; what it has only grows, and its owner is told.
pub fn monitor_invariants_hold()
    ensures { MonitorInvariantsHold }
{}

// What a monitor answers to a promise that is brought to it is so: where it stands, that it isn't due, what convicts the log, or that there is no head so late.
pub fn answers_are_true()
    ensures { AnswersAreTrue }
{}
