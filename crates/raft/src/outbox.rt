//! The letters that are due, at most one to each machine: each is made from memory as it flies.
ghost use Rattle.std.specs.Prelude.{◌≡◌, ◌-◌, ◌<◌, ◌≤◌, length};
ghost use Rattle.raft_log.specs.Layout.{at_most};
ghost use Rattle.raft_log.specs.Entries.{last_index};
ghost use Rattle.messages.specs.Message.{letter_from, Sendable};
ghost use Rattle.raft.specs.Header.{loaded};
ghost use Rattle.raft.specs.Outbox.{due_to, prev_of, letter_made, FirstDue, flown_to, Flew};

use super::header::{MAX_SIZE, Machine, Role};
use super::rows::{ANSWER, Peer, Row, next_index, set_word, word};
use super::say::Due;
use messages::Message;
use messages::encoder::encode;
use raft_log::entries::{committed, last_index, last_term, term};
use raft_log::layout::Memory;
use raft_log::{Index, MachineId};

// How many entries an append has at most.
const MAX_APPEND_ENTRIES: u64 = 15;

/// The letter that flies next.
#[derive(Clone, Copy)]
struct Next {
    to: Peer,
    due: Due,
}

/// A letter that flew: to which machine, and how many bytes.
#[derive(Clone, Copy, Debug, PartialEq, Eq)]
pub struct Sent {
    pub to: MachineId,
    pub long: usize,
}

fn due_to(memory: &Memory, to: Peer) -> Option<Due>
    ensures { result ≡ due_to memory.now to.id.0 }
{
    Due::try_from(word(memory, Row::Due, to)).ok()
}

// The index that an append goes behind.
fn prev_index(memory: &Memory, to: Peer) -> Index
    ensures is { result.0 ≡ prev_of memory.now to.id.0 }
    ensures bounded { result.0 ≤ 8193 }
{
    let before = next_index(memory, to).0.saturating_sub(1);
    Index(before).min(last_index(memory))
}

fn entry_count(memory: &Memory, prev: Index) -> usize
    ensures is { result ≡ at_most (last_index memory.now - prev.0) 15 }
    ensures few { result ≤ 15 }
{
    let behind = last_index(memory).0.saturating_sub(prev.0);
    behind.min(MAX_APPEND_ENTRIES) as usize
}

fn append_to(memory: &Memory, machine: Machine<Role>, to: Peer) -> Message<usize>
    ensures is { letter_from memory.now result ≡ letter_made memory.now machine to.id.0 Due.Append }
    ensures small { Sendable result }
{
    let prev_index = prev_index(memory, to);
    Message::Append {
        term: machine.term,
        prev_index,
        prev_term: term(memory, prev_index),
        commit: committed(memory),
        entries: entry_count(memory, prev_index),
    }
}

// The message of a kind to a machine.
fn message_to(memory: &Memory, machine: Machine<Role>, to: Peer, due: Due) -> Message<usize>
    ensures is { letter_from memory.now result ≡ letter_made memory.now machine to.id.0 due }
    ensures small { Sendable result }
{
    let term = machine.term;
    match due {
        Due::Append => append_to(memory, machine, to),
        Due::RequestVote => Message::RequestVote {
            term,
            last_index: last_index(memory),
            last_term: last_term(memory),
        },
        Due::TellTerm => Message::TermNotice { term },
        Due::Grant => Message::RequestVoteResponse {
            term,
            granted: true,
        },
        Due::Deny => Message::RequestVoteResponse {
            term,
            granted: false,
        },
        Due::Accept => Message::AppendResponse {
            term,
            index: Index(memory[ANSWER]),
        },
        Due::Reject => Message::AppendReject {
            term,
            prev_index: Index(memory[ANSWER]),
            hint: Index(memory[ANSWER + 1]),
        },
    }
}

// The letters fly in the order of the machines that they go to.
fn first_due(memory: &Memory) -> Option<Next>
    ensures { FirstDue memory.now result }
{
    for j in 0..MAX_SIZE {
        let to = Peer { id: MachineId(j) };
        if let Some(due) = due_to(memory, to) {
            return Some(Next { to, due });
        }
    }
    None
}

// Notes that the letter to a machine flew.
#[tactic(auto, unfolding(crate::specs::Outbox::flown_to))]
fn forget_due(memory: &mut Memory, to: Peer)
    ensures { memory.new ≡ flown_to memory.old to.id.0 }
{
    set_word(memory, Row::Due, to, 0);
}

/// The first letter that is due flies: its bytes are put at the front of `out`. If none is due, nothing is changed.
pub fn send_due(memory: &mut Memory, machine: Machine<Role>, out: &mut [u8]) -> Option<Sent>
    requires { (machine ≡ loaded memory.old) × (4096 ≤ length out.old) }
    ensures { Flew memory.old result memory.new out.old out.new }
{
    let next = first_due(memory)?;
    let message = message_to(memory, machine, next.to, next.due);
    let long = encode(message, memory, out);
    forget_due(memory, next.to);
    Some(Sent {
        to: next.to.id,
        long,
    })
}
