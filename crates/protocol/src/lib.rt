//! Safety of machines that take turns to lead and keep to the rules: what is proved of them, as contracts. No code runs here.
#![tactic(auto)]

ghost use Rattle.std.specs.Prelude.{◌≡◌};
ghost use Rattle.protocol.specs.Theorems.{StartSafe, MovesKeepSafe, OthersStaySound, MovesGrow, StopRestores, PromisesLast};
ghost use Rattle.protocol.specs.Theorems.{CompleteStep, LeaderCompleteness, OneOrder, DecidedOnce, OneLeader, CommittedStays, MayApply, AckedHeld, LettersStayTrue, LettersPermit};
ghost use Rattle.protocol.specs.Example.{ExampleRun};

/// Every permitted move keeps the invariant, and the start has it; a stop gives back what was stable.
pub fn moves_keep_safe()
    ensures start { StartSafe }
    ensures moves { MovesKeepSafe }
    ensures others { OthersStaySound }
    ensures grow { MovesGrow }
    ensures stops { StopRestores }
    ensures promises { PromisesLast }
{}

/// What is committed in a term is covered by the log of every later leader.
pub fn leaders_are_complete()
    ensures step { CompleteStep }
    ensures whole { LeaderCompleteness }
{}

/// Decisions are of one order, were proposed, and stand once.
pub fn decisions_have_one_order()
    ensures order { OneOrder }
    ensures once { DecidedOnce }
{}

/// In one term no two lead; what is committed stays committed and stays the same.
pub fn terms_have_one_leader()
    ensures leader { OneLeader }
    ensures stays { CommittedStays }
{}

/// What a machine may apply, and what it has of what it acknowledged.
pub fn committed_may_be_applied()
    ensures apply { MayApply }
    ensures held { AckedHeld }
{}

/// Letters are true of the history whenever they come, and what is done on their word is permitted.
pub fn letters_stay_true()
    ensures grow { LettersStayTrue }
    ensures permit { LettersPermit }
{}

/// A run of three machines: two leaders that fall, an empty entry renewed, something committed under two of three.
pub fn three_machines_decide()
    ensures { ExampleRun }
{}
