//! Power comes: memory is as it was last made safe, and what was not kept there is made anew.
ghost use Rattle.std.specs.Prelude.{◌≡◌};
ghost use Rattle.solo.specs.Power.{powered};

use super::header::{Role, load, store};
use raft::header::{ClusterSize, Ticks};
use raft::power::belongs;
use raft_log::entries::{applied, set_applied};
use raft_log::layout::Memory;
use raft_log::{MachineId, Number};

/// Starts machine `id` of `size`, from 1 to 7; for other numbers nothing is changed.
#[tactic(auto, unfolding(crate::specs::Power::powered))]
pub fn power(memory: &mut Memory, id: MachineId, size: ClusterSize)
    ensures { memory.new ≡ powered memory.old id.0 size.0 }
{
    if belongs(id, size) {
        let before = Number(applied(memory).0.saturating_sub(1));
        let machine = load(memory).restarted(id, size, Role::Follower(Ticks(0)));
        store(memory, machine);
        set_applied(memory, before);
    }
}
