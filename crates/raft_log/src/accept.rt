//! What a follower does with a leader's append.
ghost use Rattle.std.specs.Prelude.{◌≡◌, ◌+◌, ◌*◌, ◌<◌, ◌≤◌, true, length, drop, if◌then◌else◌, nat_eq};
ghost use Rattle.raft_log.specs.Entries.{last_index};
ghost use Rattle.raft_log.specs.View.{log_of, decisions, entry_in};
ghost use Rattle.raft_log.specs.Accept.{truncated, entry_taken, entries_taken, entries_fit, merges, merged, commit_noted, refused, hint as hint_of, AppendAnswered};

use super::block::Block;
use super::conflict::{find_conflict, find_conflict_by_term, match_term};
use super::entries::{committed, number, push_empty, push_value};
use super::layout::{COMMITTED, LAST_INDEX, MAX_ENTRIES, MAX_VALUES, Memory};
use super::{Index, Term};

/// A leader's entries for the places behind `prev`; the first `commit` entries of its log are decided.
#[derive(Drop)]
pub struct Append<'a> {
    pub prev: Index,
    pub prev_term: Term,
    pub commit: Index,
    pub block: Block<'a>,
}

/// An append that was refused, with an index at which the logs may agree; it is below the one that was asked for.
#[derive(Clone, Copy, Debug, PartialEq, Eq)]
pub struct Refused {
    pub hint: Index,
}

// Leaves only the first entries, up to an index.
fn truncate(memory: &mut Memory, index: Index)
    ensures { memory.new ≡ truncated memory.old index.0 }
{
    memory[LAST_INDEX] = index.0;
}

// Puts entry `i` of a block behind the last.
fn append_entry(memory: &mut Memory, block: &Block<'_>, i: usize)
    requires within { i < length block.now }
    requires room { entries_fit memory.old (drop i block.now) ≡ true }
    ensures taken { memory.new ≡ entry_taken memory.old (entry_in block.now i) }
    ensures room { entries_fit memory.new (drop (i + 1) block.now) ≡ true }
{
    match block.value(i) {
        Some(value) => push_value(memory, block.term(i), value),
        None => push_empty(memory, block.term(i)),
    }
}

// Puts the entries of a block from `start` on behind the last.
fn append_entries(memory: &mut Memory, block: &Block<'_>, start: usize)
    requires within { start ≤ length block.now }
    requires room { entries_fit memory.old (drop start block.now) ≡ true }
    ensures { memory.new ≡ entries_taken memory.old (drop start block.now) }
{
    for i in start..block.len() {
        append_entry(memory, block, i);
    }
}

// 1 for an entry with a value.
fn value_count(block: &Block<'_>, i: usize) -> u64
    requires { i < length block.now }
    ensures is { result + length (decisions (drop (i + 1) block.now)) ≡ length (decisions (drop i block.now)) }
    ensures one { result ≤ 1 }
{
    u64::from(block.value(i).is_some())
}

// How many entries of a block from `start` on have a value.
fn values_from(block: &Block<'_>, start: usize) -> u64
    requires { start ≤ length block.now }
    ensures is { result ≡ length (decisions (drop start block.now)) }
    ensures few { result ≤ 15 }
{
    let mut values = 0;
    for i in start..block.len() {
        values += value_count(block, i);
    }
    values
}

// Is there room for the entries of a block from `start` on behind the first entries of the log, up to `index`?
fn has_room(memory: &Memory, index: Index, block: &Block<'_>, start: usize) -> bool
    requires known { index.0 ≤ last_index memory.now }
    requires within { start ≤ length block.now }
    ensures { result ≡ entries_fit (truncated memory.now index.0) (drop start block.now) }
{
    let entries = index.0 + (block.len() - start) as u64;
    let values = number(memory, index).0 + values_from(block, start);
    entries <= MAX_ENTRIES && values <= MAX_VALUES
}

// Puts the entries of a block behind `prev`: where the log has them it stays as it is, also if it is longer, and where it first lacks one it is cut. `false`, and nothing changed, where they do not fit.
fn merge(memory: &mut Memory, prev: Index, block: &Block<'_>) -> bool
    requires { prev.0 ≤ last_index memory.old }
    ensures fits { result ≡ merges memory.old prev.0 block.now }
    ensures done { memory.new ≡ (if result then merged memory.old prev.0 block.now else memory.old) }
{
    let Some(conflict) = find_conflict(memory, prev, block) else {
        return true;
    };
    let index = Index(conflict.0 - 1);
    let start = (index.0 - prev.0) as usize;
    if !has_room(memory, index, block, start) {
        return false;
    }
    truncate(memory, index);
    append_entries(memory, block, start);
    true
}

// What is known to be decided rises to an index, and is never past the log.
#[tactic(auto, unfolding(crate::specs::Accept::commit_noted))]
fn note_commit(memory: &mut Memory, index: Index)
    ensures { memory.new ≡ commit_noted memory.old index.0 }
{
    memory[COMMITTED] = committed(memory).max(index).0;
}

#[tactic(auto, unfolding(crate::specs::Accept::hint))]
fn refusal(memory: &Memory, prev: Index, prev_term: Term) -> Refused
    ensures { result ≡ refused (hint_of (log_of memory.now) prev.0 prev_term.0) }
{
    Refused {
        hint: find_conflict_by_term(memory, Index(prev.0.saturating_sub(1)), prev_term),
    }
}

/// Takes a leader's append, and says up to where the logs agree. Refused, and nothing changed, where this log lacks `prev` with its term or has no room.
pub fn maybe_append(memory: &mut Memory, append: &Append<'_>) -> Result<Index, Refused>
    ensures { AppendAnswered memory.old append.now.prev.0 append.now.prev_term.0 append.now.commit.0 append.now.block result memory.new }
{
    let prev = append.prev;
    if !match_term(memory, prev, append.prev_term) || !merge(memory, prev, &append.block) {
        return Err(refusal(memory, prev, append.prev_term));
    }
    let last_new = Index(prev.0 + append.block.len() as u64);
    note_commit(memory, append.commit.min(last_new));
    Ok(last_new)
}

#[cfg(test)]
mod tests {
    use super::*;
    use crate::entries::{append_empty, append_value, last_index, last_term, term};
    use crate::layout::MEMORY_WORDS;
    use crate::values::read_value;

    // Up to where an append is taken, or else the hint.
    fn taken(
        memory: &mut Memory,
        prev: u64,
        prev_term: u64,
        bytes: &[u8],
    ) -> Option<Result<Index, Refused>> {
        let append = Append {
            prev: Index(prev),
            prev_term: Term(prev_term),
            commit: Index(9),
            block: Block::new(bytes, 1)?,
        };
        Some(maybe_append(memory, &append))
    }

    #[test]
    fn values_are_read_back(rt: HostRuntime) {
        let memory = &mut [0; MEMORY_WORDS];
        assert_eq!(rt; append_value(memory, Term(1), b"first"), Some(Index(1)));
        assert_eq!(rt; append_value(memory, Term(2), &[7; 256]), Some(Index(2)));
        assert_eq!(rt; append_value(memory, Term(2), &[7; 257]), None);
        let mut out = [0; 256];
        assert_eq!(rt; read_value(memory, 0, &mut out), 5);
        assert_eq!(rt; out[0], b'f');
        assert_eq!(rt; out[5], 0);
        assert_eq!(rt; read_value(memory, 1, &mut out), 256);
        assert_eq!(rt; out[255], 7);
        assert_eq!(rt; last_term(memory), Term(2));
    }

    #[test]
    fn an_empty_entry_is_renewed(rt: HostRuntime) {
        let memory = &mut [0; MEMORY_WORDS];
        assert_eq!(rt; append_empty(memory, Term(1)), Some(Index(1)));
        assert_eq!(rt; append_empty(memory, Term(2)), Some(Index(1)));
        assert_eq!(rt; append_value(memory, Term(2), b"x"), Some(Index(2)));
        assert_eq!(rt; append_empty(memory, Term(3)), Some(Index(3)));
        assert_eq!(rt; term(memory, Index(1)), Term(2));
    }

    #[test]
    fn an_old_append_does_not_cut(rt: HostRuntime) {
        let memory = &mut [0; MEMORY_WORDS];
        let first: [u8; 10] = [1, 0, 0, 0, 0, 0, 0, 0, 0, 0];
        let second: [u8; 11] = [1, 0, 0, 0, 0, 0, 0, 0, 2, 0, b'a'];
        let other: [u8; 11] = [2, 0, 0, 0, 0, 0, 0, 0, 2, 0, b'b'];
        assert_eq!(rt; taken(memory, 0, 0, &first), Some(Ok(Index(1))));
        assert_eq!(rt; taken(memory, 1, 1, &second), Some(Ok(Index(2))));
        assert_eq!(rt;
            taken(memory, 0, 0, &first),
            Some(Ok(Index(1))),
            "an old append comes again"
        );
        assert_eq!(rt; last_index(memory), Index(2));
        assert_eq!(rt; committed(memory), Index(2));
        assert_eq!(rt;
            taken(memory, 2, 2, &other),
            Some(Err(Refused { hint: Index(1) })),
            "the terms at 2 differ"
        );
        assert_eq!(rt; taken(memory, 1, 1, &other), Some(Ok(Index(2))));
        assert_eq!(rt; last_term(memory), Term(2));
        let mut out = [0; 256];
        assert_eq!(rt; read_value(memory, 0, &mut out), 1);
        assert_eq!(rt; out[0], b'b');
    }
}
