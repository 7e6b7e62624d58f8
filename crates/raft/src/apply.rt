//! What is still to be done after an event: make memory safe, then apply what is decided, one after the other.
ghost use Rattle.std.specs.Prelude.{◌≡◌, ◌<◌, ◌≤◌, Some, None};
ghost use Rattle.raft_log.specs.Entries.{decided};
ghost use Rattle.raft.specs.Apply.{settled, applied_up_to, due, advanced};

use super::header::{Machine, Role, store};
use raft_log::Number;
use raft_log::entries::{applied, committed, number, set_applied};
use raft_log::layout::Memory;

impl<R: Copy> Machine<R> {
    pub fn settled(self) -> Machine<R>
        ensures { result ≡ settled self }
    {
        Machine {
            unsettled: false,
            ..self
        }
    }

    pub fn applied_up_to(self, number: Number) -> Machine<R>
        ensures { result ≡ applied_up_to self number.0 }
    {
        Machine {
            since: number,
            ..self
        }
    }
}

/// The slot of the value that is applied next.
pub fn due(memory: &Memory) -> Option<u64>
    ensures is { result ≡ due memory.now }
    ensures room { elim result [ Some k ↦ k < 4096 | None ↦ 0 < 1 ] }
{
    let next = applied(memory);
    if next < number(memory, committed(memory)) {
        Some(next.0)
    } else {
        None
    }
}

/// Notes that a decision was applied.
#[tactic(auto, unfolding(crate::specs::Apply::advanced))]
pub fn advance(memory: &mut Memory, machine: Machine<Role>, number: Number)
    ensures { memory.new ≡ advanced memory.old machine number.0 }
{
    store(memory, machine.applied_up_to(number));
    set_applied(memory, number);
}
