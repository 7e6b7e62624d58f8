//! Where a long log and the blocks of another part: they agree up to the last block, and differ at its first entry.
ghost use Rattle.std.specs.Prelude.{◌≤◌};

use crate::VALUE;
use crate::memory::memory_of;
use crate::timing::Work;
use messages::MAX_LETTER_BYTES;
use raft_log::block::{Block, MAX_BLOCK_ENTRIES};
use raft_log::block_writer::write_block;
use raft_log::conflict::{find_conflict, find_conflict_by_term};
use raft_log::entries::{append_empty, append_value};
use raft_log::layout::{MEMORY_WORDS, Memory};
use raft_log::{Index, Term};
use std::alloc::{AllocError, Global};

const ENTRIES: u64 = 8000;
// As many as agree; they are whole blocks.
const AGREEING: u64 = 7995;
// One more block than agrees.
const BLOCKS: u64 = 534;

const BLOCK_ENTRIES: u64 = MAX_BLOCK_ENTRIES as u64;

// A log of entries with a value and empty ones in turn, as many as agree of term 1.
fn log(heap: Global, entries: u64, rest: Term) -> Result<Vec<u64>, AllocError> {
    let mut words = vec![in heap; 0; MEMORY_WORDS]?;
    let memory = memory_of(&mut words)?;
    for i in 0..entries {
        let term = if i < AGREEING { Term(1) } else { rest };
        let _ = if i % 2 == 0 {
            append_value(memory, term, &VALUE)
        } else {
            append_empty(memory, term)
        };
    }
    Ok(words)
}

// A block as bytes, and the index that it comes behind.
#[derive(Drop)]
struct Placed {
    prev: Index,
    bytes: Vec<u8>,
    ghost in_log: { prev.0 ≤ 8193 },
}

impl Placed {
    // The block of a log behind `prev`.
    fn new(heap: Global, memory: &Memory, prev: Index) -> Result<Placed, AllocError>
        requires { prev.0 ≤ 8193 }
    {
        let mut bytes = vec![in heap; 0; MAX_LETTER_BYTES]?;
        let first = Index(prev.0 + 1);
        let end = write_block(memory, first, MAX_BLOCK_ENTRIES, &mut bytes, 0);
        bytes.truncate(end);
        Ok(Placed { prev, bytes })
    }

    // Where a log and the block part; it is checked first, as that of a letter is.
    fn conflict(&self, memory: &Memory) -> Option<Index> {
        let block = Block::new(&self.bytes, MAX_BLOCK_ENTRIES)?;
        find_conflict(memory, self.prev, &block)
    }
}

#[derive(Drop)]
pub struct Conflict {
    memory: Vec<u64>,
    blocks: Vec<Placed>,
}

impl Conflict {
    /// The blocks are those of a log that is of term 1 throughout.
    pub fn new(heap: Global) -> Result<Conflict, AllocError> {
        let mut other = log(heap, BLOCKS * BLOCK_ENTRIES, Term(1))?;
        let other = memory_of(&mut other)?;
        let blocks = (0..BLOCKS).map(|i| Placed::new(heap, other, Index(i * BLOCK_ENTRIES)));
        Ok(Conflict {
            memory: log(heap, ENTRIES, Term(2))?,
            blocks: blocks.try_collect(heap)?,
        })
    }
}

impl Work for Conflict {
    fn name(&self) -> &'static str {
        "compare an entry of 8,000 with one of a checked block"
    }

    fn operations(&self) -> u64 {
        AGREEING + 1
    }

    fn round(&mut self) -> u64 {
        let Ok(memory) = memory_of(&mut self.memory) else {
            return 0;
        };
        self.blocks
            .iter()
            .find_map(|block| block.conflict(memory))
            .map_or(0, |index| index.0)
    }
}

#[derive(Drop)]
pub struct Hint {
    memory: Vec<u64>,
}

impl Hint {
    pub fn new(heap: Global) -> Result<Hint, AllocError> {
        Ok(Hint {
            memory: log(heap, ENTRIES, Term(2))?,
        })
    }
}

impl Work for Hint {
    fn name(&self) -> &'static str {
        "go back an entry of 8,000 for a hint by term"
    }

    fn operations(&self) -> u64 {
        ENTRIES
    }

    fn round(&mut self) -> u64 {
        let Ok(memory) = memory_of(&mut self.memory) else {
            return 0;
        };
        ENTRIES.saturating_sub(find_conflict_by_term(memory, Index(ENTRIES), Term(0)).0)
    }
}
