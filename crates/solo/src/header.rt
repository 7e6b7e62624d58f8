//! The first words of a machine's memory, as a struct.
ghost use Rattle.std.specs.Prelude.{◌≡◌, ◌≤◌};
ghost use Rattle.solo.specs.Header.{role_of, role_word, elapsed_word, loaded, stored};

use raft::header::{
    ClusterSize, ELAPSED, ELECTION_TICKS, ID, Machine, ROLE, SINCE, SIZE, TERM, Ticks, UNSETTLED,
};
use raft_log::layout::Memory;
use raft_log::{MachineId, Number, Term};

/// What each kind of machine knows. One that does not lead counts the ticks since it came to its term or last heard from the leader.
#[derive(Clone, Copy, Debug, PartialEq, Eq)]
pub enum Role {
    Follower(Ticks),
    Candidate(Ticks),
    Leader,
}

impl Role {
    // A word that is no role counts as a follower.
    fn from_words(word: u64, elapsed: u64) -> Role
        ensures { result ≡ role_of word elapsed }
    {
        let waited = Ticks(elapsed.min(ELECTION_TICKS));
        match word {
            1 => Role::Candidate(waited),
            2 => Role::Leader,
            _ => Role::Follower(waited),
        }
    }

    fn word(self) -> u64
        ensures { result ≡ role_word self }
    {
        match self {
            Role::Follower(_) => 0,
            Role::Candidate(_) => 1,
            Role::Leader => 2,
        }
    }

    fn elapsed(self) -> u64
        ensures { result ≡ elapsed_word self }
    {
        match self {
            Role::Follower(waited) | Role::Candidate(waited) => waited.0,
            Role::Leader => 0,
        }
    }
}

pub fn load(memory: &Memory) -> Machine<Role>
    ensures is { result ≡ loaded memory.now }
    ensures some { 1 ≤ result.size.0 }
{
    Machine {
        size: ClusterSize(memory[SIZE].max(1)),
        id: MachineId(memory[ID]),
        term: Term(memory[TERM]),
        role: Role::from_words(memory[ROLE], memory[ELAPSED]),
        since: Number(memory[SINCE]),
        unsettled: memory[UNSETTLED] == 1,
    }
}

#[tactic(auto, unfolding(crate::specs::Header::stored))]
pub fn store(memory: &mut Memory, machine: Machine<Role>)
    ensures { memory.new ≡ stored memory.old machine }
{
    memory[SIZE] = machine.size.0;
    memory[ID] = machine.id.0;
    memory[TERM] = machine.term.0;
    memory[ROLE] = machine.role.word();
    memory[ELAPSED] = machine.role.elapsed();
    memory[SINCE] = machine.since.0;
    memory[UNSETTLED] = u64::from(machine.unsettled);
}
