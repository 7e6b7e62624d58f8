//! Power comes: memory is as it was last made safe, and what was not kept there is made anew.
ghost use Rattle.std.specs.Prelude.{◌≡◌};
ghost use Rattle.raft.specs.Power.{belongs, restarted, powered};

use super::header::{ClusterSize, MAX_SIZE, Machine, Role, Ticks, load, store};
use super::rows::{Row, set_all};
use raft_log::entries::{applied, set_applied};
use raft_log::layout::Memory;
use raft_log::{MachineId, Number};

/// Is there a machine `id` of `size`, from 1 to 7?
pub fn belongs(id: MachineId, size: ClusterSize) -> bool
    ensures { result ≡ belongs id.0 size.0 }
{
    size.0 <= MAX_SIZE && id.0 < size.0
}

impl<R: Copy> Machine<R> {
    /// The machine as power finds it, in its first role.
    pub fn restarted(self, id: MachineId, size: ClusterSize, role: R) -> Machine<R>
        ensures { result ≡ restarted self id.0 size.0 role }
    {
        Machine {
            size,
            id,
            role,
            since: Number(0),
            unsettled: false,
            ..self
        }
    }
}

/// Starts machine `id` of `size`, from 1 to 7; for other numbers nothing is changed.
#[tactic(auto, unfolding(crate::specs::Power::powered))]
pub fn power(memory: &mut Memory, id: MachineId, size: ClusterSize)
    ensures { memory.new ≡ powered memory.old id.0 size.0 }
{
    if belongs(id, size) {
        let before = Number(applied(memory).0.saturating_sub(1));
        let role = Role::Follower(Ticks(0), false);
        let machine = load(memory).restarted(id, size, role);
        store(memory, machine);
        set_applied(memory, before);
        set_all(memory, Row::Due, 0);
    }
}
