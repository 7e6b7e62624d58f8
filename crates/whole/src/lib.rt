//! The main theorem about the machine. No code runs here: a check asks for what the contracts name.
#![tactic(auto)]

ghost use Rattle.std.specs.Prelude.{false};
ghost use Rattle.together.specs.Promise.{Steady, Whole};
ghost use Rattle.together.specs.Entry.{own};

/// Memory never grows, and its numbers stay below 2^64, whatever is told to the machine.
pub fn memory_is_steady()
    ensures { Steady own }
{}

/// Whatever happens to one to seven machines, nothing wrong is applied; and one that is alone goes on in calm.
pub fn whole_stands()
    ensures { Whole false own }
{}
