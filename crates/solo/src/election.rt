//! A tick: one that hears from no leader goes to the next term, and stands there if the term is its own.
ghost use Rattle.std.specs.Prelude.{◌≡◌, ◌≤◌};
ghost use Rattle.solo.specs.Election.{led, campaigned, term_entered, next_term_entered, waited, ticked};

use super::header::{Role, load, store};
use raft::header::{ELECTION_TICKS, Machine, Ticks};
use raft::rows::is_most;
use raft_log::Term;
use raft_log::entries::{append_empty, commit_to};
use raft_log::layout::Memory;

#[tactic(auto, unfolding(crate::specs::Election::led))]
fn lead(memory: &mut Memory, machine: Machine<Role>, term: Term)
    ensures { memory.new ≡ led memory.old machine term.0 }
{
    let Some(index) = append_empty(memory, term) else {
        store(memory, machine.in_term(term, Role::Follower(Ticks(0))));
        return;
    };
    commit_to(memory, index);
    store(memory, machine.in_term(term, Role::Leader));
}

#[tactic(auto, unfolding(crate::specs::Election::campaigned))]
fn campaign(memory: &mut Memory, machine: Machine<Role>, term: Term)
    ensures { memory.new ≡ campaigned memory.old machine term.0 }
{
    if is_most(1, machine.size) {
        lead(memory, machine, term);
    } else {
        store(memory, machine.in_term(term, Role::Candidate(Ticks(0))));
    }
}

#[tactic(auto, unfolding(crate::specs::Election::term_entered))]
fn enter_term(memory: &mut Memory, machine: Machine<Role>, term: Term)
    requires { 1 ≤ machine.size.0 }
    ensures { memory.new ≡ term_entered memory.old machine term.0 }
{
    if term.0 % machine.size.0 == machine.id.0 {
        campaign(memory, machine, term);
    } else {
        store(memory, machine.in_term(term, Role::Follower(Ticks(0))));
    }
}

fn enter_next_term(memory: &mut Memory, machine: Machine<Role>)
    requires { 1 ≤ machine.size.0 }
    ensures { memory.new ≡ next_term_entered memory.old machine }
{
    if machine.term < Term(u64::MAX) {
        enter_term(memory, machine, Term(machine.term.0 + 1));
    }
}

fn wait(memory: &mut Memory, machine: Machine<Role>, elapsed: Ticks, role: Role)
    requires { 1 ≤ machine.size.0 }
    ensures { memory.new ≡ waited memory.old machine elapsed role }
{
    if elapsed < Ticks(ELECTION_TICKS) {
        store(memory, machine.with_role(role));
    } else {
        enter_next_term(memory, machine);
    }
}

/// Some time has passed.
#[tactic(auto, unfolding(crate::specs::Election::ticked))]
pub fn tick(memory: &mut Memory)
    ensures { memory.new ≡ ticked memory.old }
{
    let machine = load(memory);
    match machine.role {
        Role::Follower(elapsed) => {
            let elapsed = elapsed.older();
            wait(memory, machine, elapsed, Role::Follower(elapsed));
        }
        Role::Candidate(elapsed) => {
            let elapsed = elapsed.older();
            wait(memory, machine, elapsed, Role::Candidate(elapsed));
        }
        Role::Leader => {}
    }
}
