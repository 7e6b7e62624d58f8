//! What a leader makes of the answers to its appends.
ghost use Rattle.std.specs.Prelude.{◌≡◌, ◌+◌, ◌<◌, ◌≤◌};
ghost use Rattle.raft.specs.Rows.{matched_at};
ghost use Rattle.raft.specs.Progress.{matched_raised, spread, ack_taken, next_below, rejects_next, reject_taken};

use super::commit::maybe_commit;
use super::header::{Machine, Role};
use super::rows::{Peer, Row, matched, next_index, set_word};
use super::say::{Due, say_to, say_to_others};
use raft_log::Index;
use raft_log::entries::{committed, last_index};
use raft_log::layout::Memory;
use tracker::progress::index_after;

#[tactic(auto, unfolding(crate::specs::Progress::matched_raised))]
fn raise_matched(memory: &mut Memory, from: Peer, index: Index)
    ensures { memory.new ≡ matched_raised memory.old from.id.0 index.0 }
{
    let has = index.max(matched(memory, from));
    let next = index_after(has).max(next_index(memory, from));
    set_word(memory, Row::Matched, from, has.0);
    set_word(memory, Row::Next, from, next.0);
}

// If commit rose all hear of it; else the one that answered gets what it lacks.
#[tactic(auto, unfolding(crate::specs::Progress::spread))]
fn spread(memory: &mut Memory, machine: Machine<Role>, from: Peer, commit: Index)
    ensures { memory.new ≡ spread memory.old machine from.id.0 commit.0 }
{
    if commit < committed(memory) {
        say_to_others(memory, machine, Due::Append);
        return;
    }
    if next_index(memory, from) <= last_index(memory) {
        say_to(memory, from.id, Due::Append);
    }
}

/// A machine has acknowledged the log up to an index.
#[tactic(auto, unfolding(crate::specs::Progress::ack_taken))]
pub(crate) fn take_ack(memory: &mut Memory, machine: Machine<Role>, from: Peer, index: Index)
    requires { (1 ≤ machine.size.0) × (machine.size.0 ≤ 7) }
    ensures { memory.new ≡ ack_taken memory.old machine from.id.0 index.0 }
{
    if index <= last_index(memory) {
        let commit = committed(memory);
        raise_matched(memory, from, index);
        maybe_commit(memory, machine.size, machine.term);
        spread(memory, machine, from, commit);
    }
}

// A rejection that says something new.
fn rejects_next(memory: &Memory, from: Peer, rejected: Index) -> bool
    ensures { result ≡ rejects_next memory.now from.id.0 rejected.0 }
{
    next_index(memory, from) == index_after(rejected) && matched(memory, from) < rejected
}

fn next_below(memory: &Memory, from: Peer, rejected: Index, hint: Index) -> Index
    requires { matched_at memory.now from.id.0 < rejected.0 }
    ensures { result.0 ≡ next_below memory.now from.id.0 rejected.0 hint.0 }
{
    let least = index_after(matched(memory, from));
    rejected.min(index_after(hint)).max(least)
}

/// A machine has rejected an append behind an index, with a hint where to go on.
#[tactic(auto, unfolding(crate::specs::Progress::reject_taken))]
pub(crate) fn take_reject(memory: &mut Memory, from: Peer, rejected: Index, hint: Index)
    ensures { memory.new ≡ reject_taken memory.old from.id.0 rejected.0 hint.0 }
{
    if rejects_next(memory, from, rejected) {
        let next = next_below(memory, from, rejected, hint);
        set_word(memory, Row::Next, from, next.0);
        say_to(memory, from.id, Due::Append);
    }
}
