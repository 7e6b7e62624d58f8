//! The log in memory: a row for each entry, with its term and how many values stand up to it.
ghost use Rattle.std.specs.Prelude.{◌≡◌, ℕ, ◌+◌, ◌-◌, ◌*◌, ◌<◌, ◌≤◌, true, false, cond, ◌&&◌, length, Some, None};
ghost use Rattle.raft_log.specs.Layout.{entry_row};
ghost use Rattle.raft_log.specs.Block.{SlotOf, slot_of};
ghost use Rattle.raft_log.specs.Entries.{in_log, last_index, commit_index, applied_number, term_at, number_at, values, entry_put, entry_pushed, index, empty_place, value_appended, ValueAppended, EmptyAppended, commit_rises, commit_raised, applied_set};

use super::layout::{
    APPLIED, COMMITTED, ENTRIES, ENTRY_WORDS, LAST_INDEX, MAX_ENTRIES, MAX_VALUE_BYTES, MAX_VALUES,
    Memory,
};
use super::values::write_value;
use super::{Index, Number, Term};

fn entry_row(index: Index) -> usize
    requires { (1 ≤ index.0) × (index.0 ≤ 8193) }
    ensures { result ≡ entry_row index.0 }
{
    ENTRIES + ENTRY_WORDS * (index.0 - 1) as usize
}

/// How many entries the log has.
#[tactic(auto, unfolding(crate::specs::Entries::last_index))]
pub fn last_index(memory: &Memory) -> Index
    ensures is { result.0 ≡ last_index memory.now }
    ensures bounded { result.0 ≤ 8193 }
{
    Index(memory[LAST_INDEX].min(MAX_ENTRIES))
}

/// How many entries are known to be decided.
#[tactic(auto, unfolding(crate::specs::Entries::commit_index))]
pub fn committed(memory: &Memory) -> Index
    ensures is { result.0 ≡ commit_index memory.now }
    ensures bounded { result.0 ≤ 8193 }
{
    Index(memory[COMMITTED]).min(last_index(memory))
}

/// The number of the last decision that was applied.
#[tactic(auto, unfolding(crate::specs::Entries::applied_number))]
pub fn applied(memory: &Memory) -> Number
    ensures is { result.0 ≡ applied_number memory.now }
    ensures bounded { result.0 ≤ 4096 }
{
    Number(memory[APPLIED].min(MAX_VALUES))
}

// The row of an entry, if there is one.
fn row_of(memory: &Memory, index: Index) -> Option<usize>
    ensures { elim result [ Some k ↦ (in_log memory.now index.0 ≡ true) × (k ≡ entry_row index.0) × (k < 16457) | None ↦ in_log memory.now index.0 ≡ false ] }
{
    if index.0 == 0 || index > last_index(memory) {
        None
    } else {
        Some(entry_row(index))
    }
}

/// The term of an entry; 0 where there is none.
#[tactic(auto, unfolding(crate::specs::Entries::term_at))]
pub fn term(memory: &Memory, index: Index) -> Term
    ensures { result.0 ≡ term_at memory.now index.0 }
{
    row_of(memory, index).map_or(Term(0), |row| Term(memory[row]))
}

/// How many values stand up to an entry and with it.
#[tactic(auto, unfolding(crate::specs::Entries::number_at))]
pub fn number(memory: &Memory, index: Index) -> Number
    ensures is { result.0 ≡ number_at memory.now index.0 }
    ensures bounded { result.0 ≤ 4096 }
{
    row_of(memory, index).map_or(Number(0), |row| Number(memory[row + 1].min(MAX_VALUES)))
}

/// The slot of an entry's value; an empty entry has none.
#[tactic(auto, unfolding(crate::specs::Block::slot_of))]
pub fn slot(memory: &Memory, index: Index) -> Option<u64>
    ensures is { result ≡ slot_of memory.now index.0 }
    ensures holds { SlotOf memory.now index.0 result }
{
    let last = number(memory, index);
    if last == number(memory, Index(index.0.saturating_sub(1))) {
        return None;
    }
    Some(last.0.saturating_sub(1))
}

/// The term of the last entry; 0 of an empty log.
pub fn last_term(memory: &Memory) -> Term
    ensures { result.0 ≡ term_at memory.now (last_index memory.now) }
{
    term(memory, last_index(memory))
}

// Where the empty entry of a new leader goes: no value more stands up to an empty entry than up to the one before.
fn empty_place(memory: &Memory) -> Index
    ensures is { result ≡ index (empty_place memory.now) }
    ensures place { 1 ≤ result.0 }
{
    let last = last_index(memory);
    if last.0 >= 1 && slot(memory, last).is_none() {
        last
    } else {
        Index(last.0 + 1)
    }
}

fn put_entry(memory: &mut Memory, index: Index, term: Term, number: Number)
    requires { (1 ≤ index.0) × (index.0 ≤ 8193) }
    ensures { memory.new ≡ entry_put memory.old index.0 term.0 number.0 }
{
    let row = entry_row(index);
    memory[row] = term.0;
    memory[row + 1] = number.0;
}

// Puts an entry behind the last, or in its place.
fn push_entry(memory: &mut Memory, index: Index, term: Term, number: Number)
    requires { (1 ≤ index.0) × (index.0 ≤ 8193) }
    ensures { memory.new ≡ entry_pushed memory.old index.0 term.0 number.0 }
{
    put_entry(memory, index, term, number);
    memory[LAST_INDEX] = index.0;
}

/// Puts a value behind the last entry.
#[tactic(auto, unfolding(crate::specs::Entries::value_appended))]
pub(crate) fn push_value(memory: &mut Memory, term: Term, bytes: &[u8])
    requires { (last_index memory.old < 8193) × ((values memory.old < 4096) × (length bytes.now ≤ 256)) }
    ensures { memory.new ≡ value_appended memory.old term.0 bytes.now }
{
    let last = last_index(memory);
    let values = number(memory, last);
    write_value(memory, values.0, bytes);
    push_entry(memory, Index(last.0 + 1), term, Number(values.0 + 1));
}

/// Puts an empty entry behind the last.
pub(crate) fn push_empty(memory: &mut Memory, term: Term)
    requires { last_index memory.old < 8193 }
    ensures { memory.new ≡ entry_pushed memory.old (last_index memory.old + 1) term.0 (values memory.old) }
{
    let last = last_index(memory);
    let values = number(memory, last);
    push_entry(memory, Index(last.0 + 1), term, values);
}

/// Puts a value behind the last entry, and says where; `None`, and nothing changed, where it does not fit.
#[tactic(auto, unfolding(crate::specs::Entries::value_appended))]
pub fn append_value(memory: &mut Memory, term: Term, bytes: &[u8]) -> Option<Index>
    ensures { ValueAppended memory.old term.0 bytes.now result memory.new }
{
    let last = last_index(memory);
    let values = number(memory, last);
    if bytes.len() as u64 > MAX_VALUE_BYTES || last.0 >= MAX_ENTRIES || values.0 >= MAX_VALUES {
        return None;
    }
    push_value(memory, term, bytes);
    Some(Index(last.0 + 1))
}

/// Puts the empty entry of a new leader last, and says where: one that is last already is renewed. `None`, and nothing changed, where it does not fit.
#[tactic(auto, unfolding(crate::specs::Entries::empty_appended))]
pub fn append_empty(memory: &mut Memory, term: Term) -> Option<Index>
    ensures { EmptyAppended memory.old term.0 result memory.new }
{
    let place = empty_place(memory);
    if place.0 > MAX_ENTRIES {
        return None;
    }
    let values = number(memory, last_index(memory));
    push_entry(memory, place, term, values);
    Some(place)
}

fn commit_rises(memory: &Memory, index: Index) -> bool
    ensures { result ≡ commit_rises memory.now index.0 }
{
    committed(memory) < index && index <= last_index(memory)
}

/// What is known to be decided rises to an index of the log; it never falls.
#[tactic(auto, unfolding(crate::specs::Entries::commit_raised))]
pub fn commit_to(memory: &mut Memory, index: Index)
    ensures { memory.new ≡ commit_raised memory.old index.0 }
{
    if commit_rises(memory, index) {
        memory[COMMITTED] = index.0;
    }
}

/// Notes the number of the last decision that was applied.
#[tactic(auto, unfolding(crate::specs::Entries::applied_set))]
pub fn set_applied(memory: &mut Memory, number: Number)
    ensures { memory.new ≡ applied_set memory.old number.0 }
{
    memory[APPLIED] = number.0;
}
