//! Ticks, terms and votes: one that hears from no leader goes to the next term, and stands there if the term is its own.
ghost use Rattle.std.specs.Prelude.{◌≡◌, ◌<◌, ◌≤◌, ◌||◌, ◌==◌};
ghost use Rattle.raft.specs.Election.{owner, rows_begun, led, stood, campaigned, followed, term_entered, next_term_entered, reminded, waited, asked_again, ticked, wins_now, vote_taken};

use super::commit::maybe_commit;
use super::header::{ELECTION_TICKS, Machine, Role, Ticks, load, store};
use super::rows::{Peer, Row, is_most, set_all, set_only, set_word, vote_count};
use super::say::{Due, say_to, say_to_others};
use raft_log::entries::append_empty;
use raft_log::layout::Memory;
use raft_log::{Index, MachineId, Term};

// Who wins with fewer ticks left than this does not lead: others may be leaving the term already.
const LATE_TICKS: Ticks = Ticks(ELECTION_TICKS - 2);

impl Machine<Role> {
    // The only machine that may stand or lead in a term.
    fn owner_of(self, term: Term) -> MachineId
        requires { 1 ≤ self.size.0 }
        ensures { result.0 ≡ owner self.size.0 term.0 }
    {
        MachineId(term.0 % self.size.0)
    }
}

#[tactic(auto, unfolding(crate::specs::Election::rows_begun))]
fn begin_rows(memory: &mut Memory, id: MachineId, last: Index)
    ensures { memory.new ≡ rows_begun memory.old id.0 last.0 }
{
    set_only(memory, Row::Matched, id, last.0);
    set_all(memory, Row::Next, last.0);
}

#[tactic(auto, unfolding(crate::specs::Election::led, crate::specs::Election::led_with_room))]
fn lead(memory: &mut Memory, machine: Machine<Role>, term: Term)
    requires { (1 ≤ machine.size.0) × (machine.size.0 ≤ 7) }
    ensures { memory.new ≡ led memory.old machine term.0 }
{
    let Some(index) = append_empty(memory, term) else {
        store(
            memory,
            machine.in_term(term, Role::Follower(Ticks(0), false)),
        );
        return;
    };
    begin_rows(memory, machine.id, index);
    maybe_commit(memory, machine.size, term);
    store(memory, machine.in_term(term, Role::Leader));
    say_to_others(memory, machine, Due::Append);
}

#[tactic(auto, unfolding(crate::specs::Election::stood))]
fn stand(memory: &mut Memory, machine: Machine<Role>, term: Term)
    ensures { memory.new ≡ stood memory.old machine term.0 }
{
    store(memory, machine.in_term(term, Role::Candidate(Ticks(0))));
    set_only(memory, Row::Votes, machine.id, 1);
    say_to_others(memory, machine, Due::RequestVote);
}

#[tactic(auto, unfolding(crate::specs::Election::campaigned))]
fn campaign(memory: &mut Memory, machine: Machine<Role>, term: Term)
    requires { (1 ≤ machine.size.0) × (machine.size.0 ≤ 7) }
    ensures { memory.new ≡ campaigned memory.old machine term.0 }
{
    if is_most(1, machine.size) {
        lead(memory, machine, term);
    } else {
        stand(memory, machine, term);
    }
}

#[tactic(auto, unfolding(crate::specs::Election::followed))]
fn follow(memory: &mut Memory, machine: Machine<Role>, term: Term, loud: bool)
    requires { 1 ≤ machine.size.0 }
    ensures { memory.new ≡ followed memory.old machine term.0 loud }
{
    store(
        memory,
        machine.in_term(term, Role::Follower(Ticks(0), false)),
    );
    if loud {
        say_to_others(memory, machine, Due::TellTerm);
    } else {
        say_to(memory, machine.owner_of(term), Due::TellTerm);
    }
}

/// The machine goes to a term: its owner stands, any other follows and says so.
#[tactic(auto, unfolding(crate::specs::Election::term_entered))]
pub(crate) fn enter_term(memory: &mut Memory, machine: Machine<Role>, term: Term, loud: bool)
    requires { (1 ≤ machine.size.0) × (machine.size.0 ≤ 7) }
    ensures { memory.new ≡ term_entered memory.old machine term.0 loud }
{
    if machine.owner_of(term) == machine.id {
        campaign(memory, machine, term);
    } else {
        follow(memory, machine, term, loud);
    }
}

fn enter_next_term(memory: &mut Memory, machine: Machine<Role>)
    requires { (1 ≤ machine.size.0) × (machine.size.0 ≤ 7) }
    ensures { memory.new ≡ next_term_entered memory.old machine }
{
    if machine.term < Term(u64::MAX) {
        enter_term(memory, machine, Term(machine.term.0 + 1), true);
    }
}

fn knows_leader(machine: Machine<Role>, heard: bool) -> bool
    requires { 1 ≤ machine.size.0 }
    ensures { result ≡ (heard || owner machine.size.0 machine.term.0 == machine.id.0) }
{
    heard || machine.owner_of(machine.term) == machine.id
}

// Who has not heard from the term's leader tells its owner again where it is.
#[tactic(auto, unfolding(crate::specs::Election::reminded))]
fn remind(memory: &mut Memory, machine: Machine<Role>, heard: bool)
    requires { 1 ≤ machine.size.0 }
    ensures { memory.new ≡ reminded memory.old machine heard }
{
    if !knows_leader(machine, heard) {
        say_to(memory, machine.owner_of(machine.term), Due::TellTerm);
    }
}

fn wait(memory: &mut Memory, machine: Machine<Role>, elapsed: Ticks, heard: bool)
    requires { (1 ≤ machine.size.0) × (machine.size.0 ≤ 7) }
    ensures { memory.new ≡ waited memory.old machine elapsed heard }
{
    if elapsed < Ticks(ELECTION_TICKS) {
        store(memory, machine.with_role(Role::Follower(elapsed, heard)));
        remind(memory, machine, heard);
    } else {
        enter_next_term(memory, machine);
    }
}

fn ask_again(memory: &mut Memory, machine: Machine<Role>, elapsed: Ticks)
    requires { (1 ≤ machine.size.0) × (machine.size.0 ≤ 7) }
    ensures { memory.new ≡ asked_again memory.old machine elapsed }
{
    if elapsed < Ticks(ELECTION_TICKS) {
        store(memory, machine.with_role(Role::Candidate(elapsed)));
        say_to_others(memory, machine, Due::RequestVote);
    } else {
        enter_next_term(memory, machine);
    }
}

/// Some time has passed.
#[tactic(auto, unfolding(crate::specs::Election::ticked))]
pub fn tick(memory: &mut Memory)
    ensures { memory.new ≡ ticked memory.old }
{
    let machine = load(memory);
    match machine.role {
        Role::Follower(elapsed, heard) => wait(memory, machine, elapsed.older(), heard),
        Role::Candidate(elapsed) => ask_again(memory, machine, elapsed.older()),
        Role::Leader => say_to_others(memory, machine, Due::Append),
    }
}

fn wins(memory: &Memory, machine: Machine<Role>, elapsed: Ticks) -> bool
    requires { machine.size.0 ≤ 7 }
    ensures { result ≡ wins_now memory.now machine elapsed }
{
    is_most(vote_count(memory, machine.size), machine.size) && elapsed < LATE_TICKS
}

/// A candidate got a vote: with more than half it leads.
#[tactic(auto, unfolding(crate::specs::Election::vote_taken))]
pub(crate) fn take_vote(memory: &mut Memory, machine: Machine<Role>, elapsed: Ticks, from: Peer)
    requires { (1 ≤ machine.size.0) × (machine.size.0 ≤ 7) }
    ensures { memory.new ≡ vote_taken memory.old machine elapsed from.id.0 }
{
    set_word(memory, Row::Votes, from, 1);
    if wins(memory, machine, elapsed) {
        lead(memory, machine, machine.term);
    }
}
