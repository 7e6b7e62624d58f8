//! Entries as rows write them, `index:term` pairs split by blanks, as a log in memory and back.
use crate::row::{RowError, parse_pair};
use raft_log::entries::{append_value, last_index, slot, term};
use raft_log::layout::{MAX_VALUE_BYTES, Memory};
use raft_log::values::read_value;
use raft_log::{Index, Term};
use std::alloc::{AllocError, Global};

const MAX_BYTES: usize = MAX_VALUE_BYTES as usize;

/// A memory is too large for the stack: its words are on the heap, and are seen as a memory here.
pub fn memory_of(words: &mut [u64]) -> Result<&mut Memory, RowError> {
    words.as_mut_array().ok_or(RowError::Memory)
}

// Puts an entry behind the last; its value is its own text.
fn push(memory: &mut Memory, pair: &str, name: &'static str) -> Result<(), RowError> {
    let (index, term) = parse_pair(pair, name)?;
    let place = append_value(memory, Term(term), pair.as_bytes()).ok_or(RowError::TooLarge(name))?;
    if place != Index(index) {
        return Err(RowError::Unreadable(name));
    }
    Ok(())
}

/// Puts entries, which begin where the log ends, behind it.
pub fn append(memory: &mut Memory, entries: &str, name: &'static str) -> Result<(), RowError> {
    entries
        .split_whitespace()
        .try_for_each(|pair| push(memory, pair, name))
}

/// Fills the log with entries of no meaning up to an index.
pub fn pad(memory: &mut Memory, upto: Index, name: &'static str) -> Result<(), RowError> {
    for _ in 0..upto.0 {
        append_value(memory, Term(0), b"").ok_or(RowError::TooLarge(name))?;
    }
    Ok(())
}

/// The index before the first of the entries, and how many they are.
pub fn extent(entries: &str, name: &'static str) -> Result<(Index, usize), RowError> {
    let Some(first) = entries.split_whitespace().next() else {
        return Ok((Index(0), 0));
    };
    let (index, _) = parse_pair(first, name)?;
    let prev = index.checked_sub(1).ok_or(RowError::Unreadable(name))?;
    Ok((Index(prev), entries.split_whitespace().count()))
}

// Is the value of an entry this text?
fn holds(memory: &Memory, index: Index, text: &str) -> bool {
    let Some(slot) = slot(memory, index) else {
        return false;
    };
    let mut room = [0; MAX_BYTES];
    let len = read_value(memory, slot, &mut room).min(MAX_BYTES);
    &room[..len] == text.as_bytes()
}

// An entry whose value is not its own text has a mark.
fn entry_text(heap: Global, memory: &Memory, index: Index) -> Result<String, AllocError> {
    let pair = format!(in heap; "{}:{}", index.0, term(memory, index).0)?;
    let mark = if holds(memory, index, pair.as_str()) {
        ""
    } else {
        "?"
    };
    format!(in heap; "{pair}{mark}")
}

/// The whole log as a row writes it.
pub fn log_text(heap: Global, memory: &Memory) -> Result<String, AllocError> {
    let last = last_index(memory).0;
    if last == 0 {
        return String::from_str(heap, "-");
    }
    (1..=last)
        .map(|index| entry_text(heap, memory, Index(index)))
        .try_collect::<Vec<String>>(heap)?
        .join(heap, " ")
}
