//! A value is proposed: it is refused, or stands last in the leader's log.
ghost use Rattle.std.specs.Prelude.{◌≡◌, Ok, Err};
ghost use Rattle.solo.specs.Proposal.{own_acked, Proposed};

use super::header::{Role, load, store};
use raft::header::Machine;
use raft::proposal::Refusal;
use raft::rows::is_most;
use raft_log::Index;
use raft_log::entries::{append_value, commit_to};
use raft_log::layout::{MAX_VALUE_BYTES, Memory};

// The leader itself has the entry: with one machine that is more than half.
#[tactic(auto, unfolding(crate::specs::Proposal::own_acked))]
fn own_ack(memory: &mut Memory, machine: Machine<Role>, index: Index)
    ensures { memory.new ≡ own_acked memory.old machine index.0 }
{
    if is_most(1, machine.size) {
        commit_to(memory, index);
    }
}

/// Takes a proposal, or says why not; nothing is changed then.
#[tactic(auto, unfolding(crate::specs::Proposal::proposed, crate::specs::Proposal::taken))]
pub fn propose(memory: &mut Memory, bytes: &[u8]) -> Result<(), Refusal>
    ensures { Proposed memory.old bytes.now result memory.new }
{
    if bytes.len() as u64 > MAX_VALUE_BYTES {
        return Err(Refusal::TooLong);
    }
    let machine = load(memory);
    if machine.role != Role::Leader {
        return Err(Refusal::NotNow);
    }
    let index = append_value(memory, machine.term, bytes).ok_or(Refusal::Full)?;
    own_ack(memory, machine, index);
    store(memory, machine.with_unsettled());
    Ok(())
}
