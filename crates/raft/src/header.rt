//! The first words of a machine's memory, as a struct.
ghost use Rattle.std.specs.Prelude.{◌≡◌, ◌<◌, ◌≤◌};
ghost use Rattle.raft.specs.Header.{size_of, older, role_of, role_word, elapsed_word, heard_word, with_role, in_term, loaded, stored};

use raft_log::layout::Memory;
use raft_log::{MachineId, Number, Term};

/// Ticks that a machine waits for a leader before it goes to the next term.
pub const ELECTION_TICKS: u64 = 10;

pub const MAX_SIZE: u64 = 7;

/// Where the words of a machine stand, one after the other.
pub const SIZE: usize = 0;

pub const ID: usize = 1;

pub const TERM: usize = 2;

pub const ROLE: usize = 3;

pub const ELAPSED: usize = 4;

pub const SINCE: usize = 5;

pub const UNSETTLED: usize = 6;

const HEARD: usize = 7;

/// How many machines there are.
#[derive(Clone, Copy, Debug, PartialEq, Eq, PartialOrd, Ord)]
pub struct ClusterSize(pub u64);

/// How many ticks have passed.
#[derive(Clone, Copy, Debug, PartialEq, Eq, PartialOrd, Ord)]
pub struct Ticks(pub u64);

impl Ticks {
    /// One tick more, up to an election's time.
    pub fn older(self) -> Ticks
        ensures { result ≡ older self }
    {
        Ticks(self.0.saturating_add(1).min(ELECTION_TICKS))
    }
}

/// What each kind of machine knows. One that does not lead counts the ticks since it came to its term or last heard from the leader; a follower knows whether the leader of
/// its term has spoken. Who voted for a candidate, and how far each machine is as its leader knows, stand in rows of memory (module `rows`).
#[derive(Clone, Copy, Debug, PartialEq, Eq)]
pub enum Role {
    Follower(Ticks, bool),
    Candidate(Ticks),
    Leader,
}

/// A machine in a role.
#[derive(Clone, Copy, Debug, PartialEq, Eq)]
pub struct Machine<R> {
    pub size: ClusterSize,
    pub id: MachineId,
    pub term: Term,
    pub role: R,
    /// The last decision that was applied since power came, or 0.
    pub since: Number,
    /// Term or log have changed since memory was last made safe.
    pub unsettled: bool,
}

impl<R: Copy> Machine<R> {
    /// The same machine in another role.
    pub fn with_role(self, role: R) -> Machine<R>
        ensures { result ≡ with_role self role }
    {
        Machine { role, ..self }
    }

    /// The machine in a term: that has to be made safe.
    pub fn in_term(self, term: Term, role: R) -> Machine<R>
        ensures { result ≡ in_term self term.0 role }
    {
        Machine {
            term,
            role,
            unsettled: true,
            ..self
        }
    }
}

impl Role {
    // A word that is no role counts as a follower.
    fn from_words(word: u64, elapsed: u64, heard: u64) -> Role
        ensures { result ≡ role_of word elapsed heard }
    {
        let waited = Ticks(elapsed.min(ELECTION_TICKS));
        match word {
            1 => Role::Candidate(waited),
            2 => Role::Leader,
            _ => Role::Follower(waited, heard == 1),
        }
    }

    fn word(self) -> u64
        ensures { result ≡ role_word self }
    {
        match self {
            Role::Follower(_, _) => 0,
            Role::Candidate(_) => 1,
            Role::Leader => 2,
        }
    }

    fn elapsed(self) -> u64
        ensures { result ≡ elapsed_word self }
    {
        match self {
            Role::Follower(waited, _) | Role::Candidate(waited) => waited.0,
            Role::Leader => 0,
        }
    }

    fn heard(self) -> u64
        ensures { result ≡ heard_word self }
    {
        match self {
            Role::Follower(_, heard) => u64::from(heard),
            Role::Candidate(_) | Role::Leader => 0,
        }
    }
}

fn size_of(word: u64) -> u64
    ensures is { result ≡ size_of word }
    ensures some { 1 ≤ result }
    ensures few { result ≤ 7 }
{
    word.clamp(1, MAX_SIZE)
}

pub fn load(memory: &Memory) -> Machine<Role>
    ensures is { result ≡ loaded memory.now }
    ensures some { 1 ≤ result.size.0 }
    ensures few { result.size.0 ≤ 7 }
    ensures one { result.id.0 ≤ 6 }
{
    Machine {
        size: ClusterSize(size_of(memory[SIZE])),
        id: MachineId(memory[ID].min(MAX_SIZE - 1)),
        term: Term(memory[TERM]),
        role: Role::from_words(memory[ROLE], memory[ELAPSED], memory[HEARD]),
        since: Number(memory[SINCE]),
        unsettled: memory[UNSETTLED] == 1,
    }
}

#[tactic(auto, unfolding(crate::specs::Header::stored))]
pub fn store(memory: &mut Memory, machine: Machine<Role>)
    ensures { memory.new ≡ stored memory.old machine }
{
    memory[SIZE] = machine.size.0;
    memory[ID] = machine.id.0;
    memory[TERM] = machine.term.0;
    memory[ROLE] = machine.role.word();
    memory[ELAPSED] = machine.role.elapsed();
    memory[SINCE] = machine.since.0;
    memory[UNSETTLED] = u64::from(machine.unsettled);
    memory[HEARD] = machine.role.heard();
}
