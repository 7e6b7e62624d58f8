//! Machines and their letters, with stops at any time, keep to the protocol: what is proved of them, as contracts. No code runs here.
#![tactic(auto)]

ghost use Rattle.std.specs.Prelude.{◌≡◌, ℕ, List};
ghost use Rattle.machine.specs.Theorems.{InitialRefines, ItemsAreMoves, GlobalOrder, OrderOnce, Agree, SamePlaces, SameNumbers, Further};
ghost use Rattle.machine.specs.Theorems.{OneLeader, OneVote, AcksHeld, LeaderHasOrder, CommitRises, TermsRise, EventsExtend, StableGrows, TermsLast, LogsStaySmall};
ghost use Rattle.machine.specs.Maps.{StepNatural, DecidedNatural, StopNatural};
ghost use Rattle.machine.specs.Hints.{shorter, by_term, ShorterAnswers, ByTermAnswers};
ghost use Rattle.machine.specs.Example.{ExampleRun};

/// Whatever happens in a world is a row of permitted moves, and each letter that flew stays true.
pub fn events_are_permitted_moves()
    ensures initial { InitialRefines }
    ensures items { ItemsAreMoves }
{}

/// What any machine holds for decided, now or later, begins one order that only grows.
pub fn decisions_have_one_order()
    ensures order { GlobalOrder }
    ensures once { OrderOnce }
    ensures agree { Agree }
    ensures places { SamePlaces }
    ensures numbers { SameNumbers }
    ensures further { Further }
{}

/// In one term no two lead and a machine votes for one only; what a leader holds for acknowledged is there, and with a majority in its term it has all that was decided.
pub fn terms_have_one_leader()
    ensures leader { OneLeader }
    ensures votes { OneVote }
    ensures acks { AcksHeld }
    ensures order { LeaderHasOrder }
{}

/// No event takes anything back.
pub fn events_only_add()
    ensures commit { CommitRises }
    ensures term { TermsRise }
    ensures decided { EventsExtend }
{}

/// No stop takes back what was stable.
pub fn stops_keep_what_is_stable()
    ensures decided { StableGrows }
    ensures term { TermsLast }
{}

/// Logs have a bounded length.
pub fn logs_stay_small()
    ensures { LogsStaySmall }
{}

/// A machine looks at no entry's content: what it does with numbers of proposals, it does with the bytes that they stand for.
pub fn contents_are_not_looked_at()
    ensures step { StepNatural ℕ (List ℕ) }
    ensures decided { DecidedNatural ℕ (List ℕ) }
    ensures stop { StopNatural ℕ (List ℕ) }
{}

/// A run of three machines in which leaders fall, an empty entry is renewed, and something is decided.
pub fn three_machines_decide()
    ensures shorter { ExampleRun shorter }
    ensures by_term { ExampleRun by_term }
{}

/// What a machine answers to an append, by either way of hinting.
pub fn refusals_carry_a_hint()
    ensures shorter { ShorterAnswers ℕ }
    ensures by_term { ByTermAnswers ℕ }
{}
