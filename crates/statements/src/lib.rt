#![tactic(auto)]
// The small statements about machines that decide together: each is what the contract of a function here says.
ghost use Rattle.together.specs.Promise.{Agree, LaterProposals, TwoHalves, NoGap, CalmMore, Alone};
ghost use Rattle.statements.specs.Near.{AgreeByAny, LaterInFront, HalvesMeet, NoGapSince, AloneTwice};

// What two machines applied at the same index is the same.
pub fn agree()
    ensures { Agree }
{}

// What was right stays right when more has been proposed.
pub fn later_proposals()
    ensures { LaterProposals }
{}

// Two majorities have a machine in common.
pub fn two_halves()
    ensures { TwoHalves }
{}

// What is applied in turn has no gap.
pub fn no_gap()
    ensures { NoGap }
{}

// What is right with calm is right without.
pub fn calm_more()
    ensures { CalmMore }
{}

// A majority of one machine is that machine.
pub fn alone()
    ensures { Alone }
{}

// The premises are needed: with one less, or a weaker one, each of these is false.
pub fn premises_are_needed()
    ensures order { AgreeByAny → ⊥ }
    ensures behind { LaterInFront → ⊥ }
    ensures more { HalvesMeet → ⊥ }
    ensures first { NoGapSince → ⊥ }
    ensures once { AloneTwice → ⊥ }
{}
