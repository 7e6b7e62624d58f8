//! The main theorem about the machine. No code runs here: a check asks for what the contracts name.
#![tactic(auto)]

ghost use Rattle.std.specs.Prelude.{false};
ghost use Rattle.together.specs.Promise.{Steady, Whole};
ghost use Rattle.together_several.specs.Entry.{own};
ghost use Rattle.whole_several.specs.History.{SameNumber, OneVote, TermsLast};

/// Memory never grows, and its numbers stay below 2^64, whatever is told to the machine.
pub fn memory_is_steady()
    ensures { Steady own }
{}

/// Whatever happens to one to seven machines, nothing wrong is applied; and one that is alone goes on in calm.
pub fn whole_stands()
    ensures { Whole false own }
{}

/// What was ever applied as the same number, by whichever machine and whenever, is the same.
pub fn same_number_same_value()
    ensures { SameNumber }
{}

/// In one term a machine votes for one only, over any stop.
pub fn one_vote_in_a_term()
    ensures { OneVote }
{}

/// A machine never lowers its term, over any stop.
pub fn terms_only_rise()
    ensures { TermsLast }
{}
