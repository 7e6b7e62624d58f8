//! A letter comes: one of a higher term is entered first, one of a lower term is told the own, and one of the own term is handled by the machine's role.
ghost use Rattle.std.specs.Prelude.{◌≡◌, ◌≤◌, not, ◌&&◌};
ghost use Rattle.raft_log.specs.View.{log_of};
ghost use Rattle.raft_log.specs.Conflict.{is_up_to_date};
ghost use Rattle.messages.specs.Letter.{letter_of};
ghost use Rattle.messages.specs.Message.{letter_in};
ghost use Rattle.raft.specs.Election.{vote_due};
ghost use Rattle.raft.specs.Receive.{letter_term, heard_from, log_changes, append_taken, append_as, request_as, vote_as, response_as, reject_as, handle_with, handled, old_taken, taken_by_term, received, another, received_from_another};

use super::election::{enter_term, take_vote};
use super::header::{Machine, Role, Ticks, load, store};
use super::progress::{take_ack, take_reject};
use super::rows::Peer;
use super::say::{Answer, Due, say_answer, say_to};
use messages::Message;
use messages::decoder::read;
use raft_log::accept::{Append, maybe_append};
use raft_log::block::Block;
use raft_log::conflict::{find_conflict, is_up_to_date};
use raft_log::layout::{MAX_ENTRIES, Memory};
use raft_log::{Index, MachineId, Term};

fn term_of(message: &Message<Block<'_>>) -> Term
    ensures { result.0 ≡ letter_term (letter_in message.now) }
{
    match message {
        Message::Append { term, .. }
        | Message::AppendResponse { term, .. }
        | Message::AppendReject { term, .. }
        | Message::RequestVote { term, .. }
        | Message::RequestVoteResponse { term, .. }
        | Message::TermNotice { term } => *term,
    }
}

impl Machine<Role> {
    fn heard_from(self, changed: bool) -> Machine<Role>
        ensures { result ≡ heard_from self changed }
    {
        Machine {
            role: Role::Follower(Ticks(0), true),
            unsettled: self.unsettled || changed,
            ..self
        }
    }
}

// Does the log lack any entry of a block behind an index?
fn log_changes(memory: &Memory, prev: Index, block: &Block<'_>) -> bool
    ensures { result ≡ log_changes memory.now prev.0 block.now }
{
    prev.0 <= MAX_ENTRIES && find_conflict(memory, prev, block).is_some()
}

#[tactic(auto, unfolding(crate::specs::Receive::append_taken))]
fn take_append(memory: &mut Memory, machine: Machine<Role>, from: Peer, append: &Append<'_>)
    ensures { memory.new ≡ append_taken memory.old machine from.id.0 append.now.prev.0 append.now.prev_term.0 append.now.commit.0 append.now.block }
{
    let changes = log_changes(memory, append.prev, &append.block);
    match maybe_append(memory, append) {
        Ok(index) => {
            store(memory, machine.heard_from(changes));
            say_answer(memory, from.id, Answer::Accepted(index));
        }
        Err(refused) => {
            store(memory, machine.heard_from(false));
            let answer = Answer::Rejected {
                prev: append.prev,
                hint: refused.hint,
            };
            say_answer(memory, from.id, answer);
        }
    }
}

fn on_append(memory: &mut Memory, machine: Machine<Role>, from: Peer, append: &Append<'_>)
    ensures { memory.new ≡ append_as memory.old machine machine.role from.id.0 append.now.prev.0 append.now.prev_term.0 append.now.commit.0 append.now.block }
{
    if let Role::Follower(_, _) = machine.role {
        take_append(memory, machine, from, append);
    }
}

fn vote_due(granted: bool) -> Due
    ensures { result ≡ vote_due granted }
{
    if granted { Due::Grant } else { Due::Deny }
}

fn grants(memory: &Memory, heard: bool, last_index: Index, last_term: Term) -> bool
    ensures { result ≡ (is_up_to_date (log_of memory.now) last_index.0 last_term.0 && not heard) }
{
    is_up_to_date(memory, last_index, last_term) && !heard
}

fn on_request(
    memory: &mut Memory,
    machine: Machine<Role>,
    from: Peer,
    last_index: Index,
    last_term: Term,
)
    ensures { memory.new ≡ request_as memory.old machine.role from.id.0 last_index.0 last_term.0 }
{
    if let Role::Follower(_, heard) = machine.role {
        let due = vote_due(grants(memory, heard, last_index, last_term));
        say_to(memory, from.id, due);
    }
}

fn on_vote(memory: &mut Memory, machine: Machine<Role>, from: Peer, granted: bool)
    requires { (1 ≤ machine.size.0) × (machine.size.0 ≤ 7) }
    ensures { memory.new ≡ vote_as memory.old machine machine.role from.id.0 granted }
{
    if let Role::Candidate(elapsed) = machine.role
        && granted
    {
        take_vote(memory, machine, elapsed, from);
    }
}

fn on_response(memory: &mut Memory, machine: Machine<Role>, from: Peer, index: Index)
    requires { (1 ≤ machine.size.0) × (machine.size.0 ≤ 7) }
    ensures { memory.new ≡ response_as memory.old machine machine.role from.id.0 index.0 }
{
    if let Role::Leader = machine.role {
        take_ack(memory, machine, from, index);
    }
}

fn on_reject(memory: &mut Memory, machine: Machine<Role>, from: Peer, rejected: Index, hint: Index)
    ensures { memory.new ≡ reject_as memory.old machine.role from.id.0 rejected.0 hint.0 }
{
    if let Role::Leader = machine.role {
        take_reject(memory, from, rejected, hint);
    }
}

// A letter of the own term.
fn handle(memory: &mut Memory, machine: Machine<Role>, from: Peer, message: Message<Block<'_>>)
    requires { (1 ≤ machine.size.0) × (machine.size.0 ≤ 7) }
    ensures { memory.new ≡ handle_with memory.old machine from.id.0 (letter_in message.entry) }
{
    match message {
        Message::Append {
            prev_index,
            prev_term,
            commit,
            entries,
            ..
        } => {
            let append = Append {
                prev: prev_index,
                prev_term,
                commit,
                block: entries,
            };
            on_append(memory, machine, from, &append);
        }
        Message::AppendResponse { index, .. } => on_response(memory, machine, from, index),
        Message::AppendReject {
            prev_index,
            hint,
            ..
        } => on_reject(memory, machine, from, prev_index, hint),
        Message::RequestVote {
            last_index,
            last_term,
            ..
        } => on_request(memory, machine, from, last_index, last_term),
        Message::RequestVoteResponse { granted, .. } => on_vote(memory, machine, from, granted),
        Message::TermNotice { .. } => {}
    }
}

// A letter of a lower term: who asks is told the own.
fn take_old(memory: &mut Memory, from: Peer, message: &Message<Block<'_>>)
    ensures { memory.new ≡ old_taken memory.old from.id.0 (letter_in message.now) }
{
    match message {
        Message::Append { .. } | Message::RequestVote { .. } | Message::TermNotice { .. } => {
            say_to(memory, from.id, Due::TellTerm);
        }
        Message::AppendResponse { .. }
        | Message::AppendReject { .. }
        | Message::RequestVoteResponse { .. } => {}
    }
}

#[tactic(auto, unfolding(crate::specs::Receive::handled))]
fn handle_now(memory: &mut Memory, from: Peer, message: Message<Block<'_>>)
    ensures { memory.new ≡ handled memory.old from.id.0 (letter_in message.entry) }
{
    let machine = load(memory);
    handle(memory, machine, from, message);
}

fn take_by_term(
    memory: &mut Memory,
    machine: Machine<Role>,
    from: Peer,
    message: Message<Block<'_>>,
)
    requires { (1 ≤ machine.size.0) × (machine.size.0 ≤ 7) }
    ensures { memory.new ≡ taken_by_term memory.old machine from.id.0 (letter_in message.entry) }
{
    let term = term_of(&message);
    if machine.term < term {
        enter_term(memory, machine, term, false);
        handle_now(memory, from, message);
    } else if term < machine.term {
        take_old(memory, from, &message);
    } else {
        handle(memory, machine, from, message);
    }
}

/// A letter has come from a machine; bytes that are no letter, and a sender that is none of the machines, change nothing.
#[tactic(auto, unfolding(crate::specs::Receive::received))]
pub fn receive(memory: &mut Memory, from: MachineId, bytes: &[u8])
    ensures { memory.new ≡ received memory.old from.0 (letter_of bytes.now) }
{
    let Some(message) = read(bytes) else {
        return;
    };
    let machine = load(memory);
    if from.0 < machine.size.0 {
        take_by_term(memory, machine, Peer { id: from }, message);
    }
}

fn another(machine: Machine<Role>, from: MachineId) -> bool
    ensures { result ≡ another machine from.0 }
{
    from.0 < machine.size.0 && from != machine.id
}

/// A letter has come from a machine; bytes that are no letter, and a sender that is none of the others, change nothing.
#[tactic(auto, unfolding(crate::specs::Receive::received_from_another))]
pub fn receive_from_another(memory: &mut Memory, from: MachineId, bytes: &[u8])
    ensures { memory.new ≡ received_from_another memory.old from.0 (letter_of bytes.now) }
{
    let Some(message) = read(bytes) else {
        return;
    };
    let machine = load(memory);
    if another(machine, from) {
        take_by_term(memory, machine, Peer { id: from }, message);
    }
}
