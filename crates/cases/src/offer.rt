//! Entries that a leader offers, as the block that a letter would carry.
ghost use Rattle.std.specs.Prelude.{◌≡◌, ◌<◌, IfOk};

use crate::entries::{append, extent, memory_of, pad};
use crate::row::RowError;
use raft_log::accept::Append;
use raft_log::block::{Block, MAX_BLOCK_ENTRIES};
use raft_log::block_writer::write_block;
use raft_log::layout::{MAX_ENTRIES, MEMORY_WORDS, Memory};
use raft_log::{Index, Term, conflict};
use std::alloc::Global;

const NAME: &str = "offered";
// Every block fits.
const BLOCK_BYTES: usize = 4096;

#[derive(Drop)]
pub struct Offer {
    // The index before the first entry; 0 of none.
    pub prev: Index,
    count: usize,
    bytes: Vec<u8>,
    ghost within: { prev.0 < 8193 },
}

impl Offer {
    /// Puts the entries into a log of their own, and writes them from there.
    pub fn parse(heap: Global, entries: &str) -> Result<Offer, RowError> {
        let (prev, count) = extent(entries, NAME)?;
        if count > MAX_BLOCK_ENTRIES || prev.0 >= MAX_ENTRIES {
            return Err(RowError::TooLarge(NAME));
        }
        let mut words = vec![in heap; 0; MEMORY_WORDS]?;
        let memory = memory_of(&mut words)?;
        pad(memory, prev, NAME)?;
        append(memory, entries, NAME)?;
        let mut bytes = vec![in heap; 0; BLOCK_BYTES]?;
        let end = write_block(memory, Index(prev.0 + 1), count, &mut bytes, 0);
        bytes.truncate(end);
        Ok(Offer { prev, count, bytes })
    }

    fn block(&self) -> Result<Block<'_>, RowError> {
        Block::new(&self.bytes, self.count).ok_or(RowError::Unreadable(NAME))
    }

    /// Where the log and these entries part.
    pub fn find_conflict(&self, memory: &Memory) -> Result<Option<Index>, RowError> {
        Ok(conflict::find_conflict(memory, self.prev, &self.block()?))
    }

    /// These entries, for the places behind `prev`.
    pub fn append(
        &self,
        prev: Index,
        prev_term: Term,
        commit: Index,
    ) -> Result<Append<'_>, RowError>
        ensures { IfOk result (λ append. (append.prev ≡ prev) × ((append.prev_term ≡ prev_term) × (append.commit ≡ commit))) }
    {
        if self.count > 0 && self.prev != prev {
            return Err(RowError::Unreadable(NAME));
        }
        Ok(Append {
            prev,
            prev_term,
            commit,
            block: self.block()?,
        })
    }
}
