//! A value is proposed: it is refused, or stands last in the leader's log and is sent to all others.
ghost use Rattle.std.specs.Prelude.{◌≡◌, Ok, Err};
ghost use Rattle.raft.specs.Proposal.{refusal_number, with_unsettled, Proposed};

use super::commit::maybe_commit;
use super::header::{Machine, Role, load, store};
use super::rows::{Peer, Row, set_word};
use super::say::{Due, say_to_others};
use raft_log::entries::append_value;
use raft_log::layout::{MAX_VALUE_BYTES, Memory};

/// Why a proposal is refused, by its number.
#[derive(Clone, Copy, Debug, PartialEq, Eq)]
pub enum Refusal {
    /// This machine does not lead.
    NotNow = 3,
    /// It has more than 256 bytes.
    TooLong = 6,
    /// The log has no room for one more.
    Full = 7,
}

impl From<Refusal> for u64 {
    ghost from_gives = { λ refusal number. number ≡ refusal_number refusal };

    fn from(refusal: Refusal) -> u64 {
        refusal as u64
    }
}

impl<R: Copy> Machine<R> {
    /// Its log has changed: that has to be made safe.
    pub fn with_unsettled(self) -> Machine<R>
        ensures { result ≡ with_unsettled self }
    {
        Machine {
            unsettled: true,
            ..self
        }
    }
}

/// Takes a proposal, or says why not; nothing is changed then.
#[tactic(auto, unfolding(crate::specs::Proposal::proposed, crate::specs::Proposal::taken))]
pub fn propose(memory: &mut Memory, bytes: &[u8]) -> Result<(), Refusal>
    ensures { Proposed memory.old bytes.now result memory.new }
{
    if bytes.len() as u64 > MAX_VALUE_BYTES {
        return Err(Refusal::TooLong);
    }
    let machine = load(memory);
    if machine.role != Role::Leader {
        return Err(Refusal::NotNow);
    }
    let index = append_value(memory, machine.term, bytes).ok_or(Refusal::Full)?;
    set_word(memory, Row::Matched, Peer { id: machine.id }, index.0);
    maybe_commit(memory, machine.size, machine.term);
    store(memory, machine.with_unsettled());
    say_to_others(memory, machine, Due::Append);
    Ok(())
}
