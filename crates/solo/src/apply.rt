//! A decision is applied.
ghost use Rattle.std.specs.Prelude.{◌≡◌};
ghost use Rattle.solo.specs.Apply.{advanced};

use super::header::{Role, store};
use raft::header::Machine;
use raft_log::Number;
use raft_log::entries::set_applied;
use raft_log::layout::Memory;

/// Notes that a decision was applied.
#[tactic(auto, unfolding(crate::specs::Apply::advanced))]
pub fn advance(memory: &mut Memory, machine: Machine<Role>, number: Number)
    ensures { memory.new ≡ advanced memory.old machine number.0 }
{
    store(memory, machine.applied_up_to(number));
    set_applied(memory, number);
}
