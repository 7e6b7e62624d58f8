//! What more than half have, and how a vote stands.
use crate::row::{Row, RowError, parse, parse_pair, split_pair};
use crate::word::Word;
use raft_log::MachineId;
use std::alloc::Global;
use tracker::votes::MOST_MACHINES;
use tracker::{Votes, committed_index};

// More than these are refused.
const MAX_INDICES: usize = 1024;

pub fn answer(heap: Global, row: &Row<'_>) -> Result<String, RowError> {
    match row.operation {
        "committed_index" => answer_committed(heap, row),
        "vote_result" => answer_votes(heap, row),
        _ => Err(RowError::Operation),
    }
}

// How many machines there are.
fn size_of(row: &Row<'_>, most: usize) -> Result<usize, RowError> {
    let size = row.get("size")?;
    if size > most {
        return Err(RowError::TooLarge("size"));
    }
    Ok(size)
}

// How far each machine is known to have the log: 0 where nothing was heard of it.
fn matched_indices(heap: Global, row: &Row<'_>) -> Result<Vec<u64>, RowError> {
    let mut indices = vec![in heap; 0; size_of(row, MAX_INDICES)?]?;
    for pair in row.list("acked")?.split_whitespace() {
        let (machine, index) = parse_pair(pair, "acked")?;
        *indices
            .get_mut(machine as usize)
            .ok_or(RowError::TooLarge("acked"))? = index;
    }
    Ok(indices)
}

fn answer_committed(heap: Global, row: &Row<'_>) -> Result<String, RowError> {
    let committed = Word(committed_index(&matched_indices(heap, row)?));
    Ok(format!(in heap; "committed={committed}")?)
}

fn votes_of(row: &Row<'_>, size: usize) -> Result<Votes, RowError> {
    let mut votes = Votes::new();
    for pair in row.list("votes")?.split_whitespace() {
        let (machine, vote) = split_pair(pair, "votes")?;
        let machine = parse(machine, "votes")?;
        if machine >= size as u64 {
            return Err(RowError::TooLarge("votes"));
        }
        let Word(granted) = parse(vote, "votes")?;
        votes.record(MachineId(machine), granted);
    }
    Ok(votes)
}

fn answer_votes(heap: Global, row: &Row<'_>) -> Result<String, RowError> {
    let size = size_of(row, MOST_MACHINES)?;
    let result = Word(votes_of(row, size)?.result(size));
    Ok(format!(in heap; "result={result}")?)
}
