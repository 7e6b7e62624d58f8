//! The log: its terms, how far it is decided, which of two logs is further, and what becomes of entries on offer.
use crate::entries::{append, log_text, memory_of};
use crate::offer::Offer;
use crate::row::{Row, RowError};
use crate::word::Word;
use raft_log::accept::maybe_append;
use raft_log::conflict::is_up_to_date;
use raft_log::entries::{commit_to, committed, last_index, term};
use raft_log::layout::{MEMORY_WORDS, Memory};
use raft_log::{Index, Term};
use std::alloc::Global;

pub fn answer(heap: Global, row: &Row<'_>) -> Result<String, RowError> {
    let mut words = vec![in heap; 0; MEMORY_WORDS]?;
    let memory = memory_of(&mut words)?;
    append(memory, row.list("log")?, "log")?;
    match row.operation {
        "term" => answer_term(heap, row, memory),
        "commit_to" => answer_commit(heap, row, memory),
        "is_up_to_date" => answer_up_to_date(heap, row, memory),
        "last_index" => answer_last(heap, memory),
        "find_conflict" => answer_conflict(heap, row, memory),
        "append" => answer_append(heap, row, memory),
        "maybe_append" => answer_maybe_append(heap, row, memory),
        _ => Err(RowError::Operation),
    }
}

fn answer_term(heap: Global, row: &Row<'_>, memory: &Memory) -> Result<String, RowError> {
    let term = term(memory, row.index("index")?).0;
    Ok(format!(in heap; "term={term}")?)
}

fn answer_commit(heap: Global, row: &Row<'_>, memory: &mut Memory) -> Result<String, RowError> {
    commit_to(memory, row.index("committed")?);
    commit_to(memory, row.index("commit_to")?);
    let committed = committed(memory).0;
    Ok(format!(in heap; "committed={committed}")?)
}

fn answer_up_to_date(heap: Global, row: &Row<'_>, memory: &Memory) -> Result<String, RowError> {
    let last_index = row.index("last_index")?;
    let last_term = Term(row.get("last_term")?);
    let up_to_date = Word(is_up_to_date(memory, last_index, last_term));
    Ok(format!(in heap; "up_to_date={up_to_date}")?)
}

fn answer_last(heap: Global, memory: &Memory) -> Result<String, RowError> {
    let last = last_index(memory).0;
    Ok(format!(in heap; "last={last}")?)
}

fn answer_conflict(heap: Global, row: &Row<'_>, memory: &Memory) -> Result<String, RowError> {
    let offer = Offer::parse(heap, row.list("offered")?)?;
    let conflict = Word(offer.find_conflict(memory)?);
    Ok(format!(in heap; "conflict={conflict}")?)
}

// Entries on offer by one who knows the log before them.
fn answer_append(heap: Global, row: &Row<'_>, memory: &mut Memory) -> Result<String, RowError> {
    let offer = Offer::parse(heap, row.list("offered")?)?;
    let prev_term = term(memory, offer.prev);
    let append = offer.append(offer.prev, prev_term, Index(0))?;
    if maybe_append(memory, &append).is_err() {
        return Ok(String::from_str(heap, "refused")?);
    }
    let last = last_index(memory).0;
    let log = log_text(heap, memory)?;
    Ok(format!(in heap; "last={last}; log={log}")?)
}

fn answer_maybe_append(
    heap: Global,
    row: &Row<'_>,
    memory: &mut Memory,
) -> Result<String, RowError> {
    let offer = Offer::parse(heap, row.list("offered")?)?;
    let prev = row.index("prev_index")?;
    let prev_term = Term(row.get("prev_term")?);
    commit_to(memory, row.index("committed")?);
    let append = offer.append(prev, prev_term, row.index("leader_commit")?)?;
    let answer = Word(maybe_append(memory, &append));
    let committed = committed(memory).0;
    let log = log_text(heap, memory)?;
    Ok(format!(in heap; "{answer}; committed={committed}; log={log}")?)
}
