//! What a leader holds for decided: what more than half have, if its last entry is of the leader's own term.
ghost use Rattle.std.specs.Prelude.{◌≡◌, ◌≤◌};
ghost use Rattle.raft.specs.Commit.{quorum_index, maybe_committed};

use super::header::ClusterSize;
use super::rows::MATCHED;
use raft_log::entries::{commit_to, last_index, term};
use raft_log::layout::Memory;
use raft_log::{Index, Term};
use tracker::committed_index;

/// The largest index of the log that more than half have acknowledged.
pub(crate) fn quorum_index(memory: &Memory, size: ClusterSize) -> Index
    requires { (1 ≤ size.0) × (size.0 ≤ 7) }
    ensures { result.0 ≡ quorum_index memory.now size.0 }
{
    let matched = &memory[MATCHED..MATCHED + size.0 as usize];
    let index = committed_index(matched).unwrap_or(Index(0));
    index.min(last_index(memory))
}

/// Commit rises to what more than half have, if the entry there is of this term.
#[tactic(auto, unfolding(crate::specs::Commit::maybe_committed))]
pub(crate) fn maybe_commit(memory: &mut Memory, size: ClusterSize, own: Term)
    requires { (1 ≤ size.0) × (size.0 ≤ 7) }
    ensures { memory.new ≡ maybe_committed memory.old size.0 own.0 }
{
    let index = quorum_index(memory, size);
    if term(memory, index) == own {
        commit_to(memory, index);
    }
}
