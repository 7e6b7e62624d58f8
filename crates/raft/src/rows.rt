//! Rows of seven words, one for each machine: who voted, what each has acknowledged, what it is sent next, and which letter is due to it.
ghost use Rattle.std.specs.Prelude.{◌≡◌, ℕ, ◌+◌, ◌<◌, ◌≤◌, length, count_by, nat_eq, slice_index, slice_set};
ghost use Rattle.raft.specs.Rows.{row_at, row_set, only, others, SetBy, vote_count, matched_at, next_at, most_of};

use super::header::{ClusterSize, Machine, Role};
use raft_log::layout::Memory;
use raft_log::{Index, MachineId};

/// The rows, by where they begin.
#[derive(Clone, Copy)]
pub(crate) enum Row {
    Votes = 8,
    Matched = 15,
    Next = 22,
    Due = 29,
}

impl Row {
    fn at(self) -> usize
        ensures is { result ≡ row_at self }
        ensures within { result ≤ 57 }
    {
        self as usize
    }
}

pub const VOTES: usize = Row::Votes as usize;

pub const MATCHED: usize = Row::Matched as usize;

pub const NEXT: usize = Row::Next as usize;

pub const DUE: usize = Row::Due as usize;
/// The numbers that an answer carries.
pub const ANSWER: usize = 36;

const ROW_WORDS: usize = 7;

/// A machine that has a place in the rows.
#[derive(Clone, Copy)]
pub(crate) struct Peer {
    pub(crate) id: MachineId,
    pub(crate) ghost placed: { id.0 < 7 },
}

// Sets each word of a row to what a function says of its machine.
fn set_row<F: Fn(u64) -> u64>(memory: &mut Memory, row: Row, word: F)
    requires { F.IsAlwaysCallable word }
    ensures { SetBy memory.old (row_at row) (F.post word) memory.new }
{
    let first = row.at();
    for j in 0..ROW_WORDS {
        memory[first + j] = word(j as u64);
    }
}

/// Sets a row to a word for one machine, and 0 for the others.
pub(crate) fn set_only(memory: &mut Memory, row: Row, machine: MachineId, word: u64)
    ensures { memory.new ≡ row_set memory.old (row_at row) (only machine.0 word) }
{
    set_row(memory, row, |j| if j == machine.0 { word } else { 0 });
}

/// Sets a row to a word for each machine of the cluster but this one, and 0 for it and beyond.
pub(crate) fn set_others(memory: &mut Memory, row: Row, machine: Machine<Role>, word: u64)
    ensures { memory.new ≡ row_set memory.old (row_at row) (others machine word) }
{
    let size = machine.size.0;
    let own = machine.id.0;
    set_row(memory, row, |j| if j < size && j != own { word } else { 0 });
}

/// Sets a row to one word.
pub(crate) fn set_all(memory: &mut Memory, row: Row, word: u64)
    ensures { memory.new ≡ row_set memory.old (row_at row) (λ _. word) }
{
    set_row(memory, row, |_| word);
}

/// How many voted for this machine.
pub(crate) fn vote_count(memory: &Memory, size: ClusterSize) -> u64
    requires { size.0 ≤ 7 }
    ensures is { result ≡ vote_count memory.now size.0 }
    ensures most { result ≤ 7 }
{
    let votes = &memory[VOTES..VOTES + size.0 as usize];
    votes.iter().filter(|vote| **vote == 1).count() as u64
}

/// Are so many more than half?
pub fn is_most(count: u64, size: ClusterSize) -> bool
    requires { count ≤ 7 }
    ensures { result ≡ most_of count size.0 }
{
    size.0 < 2 * count
}

/// The word of a machine in a row.
pub(crate) fn word(memory: &Memory, row: Row, machine: Peer) -> u64
    ensures { result ≡ slice_index memory.now (row_at row + machine.id.0) }
{
    memory[row.at() + machine.id.0 as usize]
}

/// Sets the word of a machine in a row.
pub(crate) fn set_word(memory: &mut Memory, row: Row, machine: Peer, word: u64)
    ensures { memory.new ≡ slice_set memory.old (row_at row + machine.id.0) word }
{
    memory[row.at() + machine.id.0 as usize] = word;
}

/// What a machine has acknowledged.
pub(crate) fn matched(memory: &Memory, machine: Peer) -> Index
    ensures { result.0 ≡ matched_at memory.now machine.id.0 }
{
    Index(word(memory, Row::Matched, machine))
}

/// The index that a machine is sent next.
pub(crate) fn next_index(memory: &Memory, machine: Peer) -> Index
    ensures { result.0 ≡ next_at memory.now machine.id.0 }
{
    Index(word(memory, Row::Next, machine))
}
