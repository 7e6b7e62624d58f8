//! How far another machine is known to be, and what it is sent next.
use crate::row::{Row, RowError};
use crate::word::Word;
use std::alloc::Global;
use std::fmt;
use tracker::Progress;

pub fn answer(heap: Global, row: &Row<'_>) -> Result<String, RowError> {
    let mut progress = progress_of(row)?;
    match row.operation {
        "become_probe" => {
            progress.become_probe();
            after(heap, "state", Word(progress.state), &progress)
        }
        "become_replicate" => {
            progress.become_replicate();
            after(heap, "state", Word(progress.state), &progress)
        }
        "maybe_update" => {
            let changed = progress.maybe_update(row.index("acked")?);
            after(heap, "changed", Word(changed), &progress)
        }
        "maybe_decr_to" => {
            let changed = progress.maybe_decr_to(row.index("rejected")?, row.index("last")?);
            after(heap, "changed", Word(changed), &progress)
        }
        _ => Err(RowError::Operation),
    }
}

fn progress_of(row: &Row<'_>) -> Result<Progress, RowError> {
    let Word(state) = row.get("state")?;
    Ok(Progress {
        matched: row.index("match")?,
        next_index: row.index("next")?,
        state,
    })
}

// What is known after an operation, with what it answered before.
fn after<W: fmt::Display + Drop>(
    heap: Global,
    name: &str,
    word: W,
    progress: &Progress,
) -> Result<String, RowError> {
    let matched = progress.matched.0;
    let next = progress.next_index.0;
    Ok(format!(in heap; "{name}={word}; match={matched}; next={next}")?)
}
