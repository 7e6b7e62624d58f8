//! Putting values behind a log till it is full, and reading them back.
use crate::memory::memory_of;
use crate::timing::Work;
use raft_log::Term;
use raft_log::entries::append_value;
use raft_log::layout::{LAST_INDEX, MAX_VALUE_BYTES, MAX_VALUES, MEMORY_WORDS};
use raft_log::values::read_value;
use std::alloc::{AllocError, Global};

const FILL: u8 = 7;

#[derive(Drop)]
pub struct Append {
    name: &'static str,
    memory: Vec<u64>,
    value: Vec<u8>,
}

impl Append {
    pub fn new(heap: Global, name: &'static str, bytes: usize) -> Result<Append, AllocError> {
        Ok(Append {
            name,
            memory: vec![in heap; 0; MEMORY_WORDS]?,
            value: vec![in heap; FILL; bytes]?,
        })
    }

    /// The log as the last round left it.
    pub fn into_memory(self) -> Vec<u64> {
        self.memory
    }
}

impl Work for Append {
    fn name(&self) -> &'static str {
        self.name
    }

    fn operations(&self) -> u64 {
        MAX_VALUES
    }

    fn round(&mut self) -> u64 {
        let Ok(memory) = memory_of(&mut self.memory) else {
            return 0;
        };
        memory[LAST_INDEX] = 0;
        (0..MAX_VALUES)
            .filter(|i| append_value(memory, Term(*i), &self.value).is_some())
            .count() as u64
    }
}

#[derive(Drop)]
pub struct ReadBack {
    name: &'static str,
    memory: Vec<u64>,
    bytes: usize,
}

impl ReadBack {
    pub fn new(name: &'static str, memory: Vec<u64>, bytes: usize) -> ReadBack {
        ReadBack {
            name,
            memory,
            bytes,
        }
    }
}

impl Work for ReadBack {
    fn name(&self) -> &'static str {
        self.name
    }

    fn operations(&self) -> u64 {
        MAX_VALUES
    }

    fn round(&mut self) -> u64 {
        let Ok(memory) = memory_of(&mut self.memory) else {
            return 0;
        };
        let mut value = [0; MAX_VALUE_BYTES as usize];
        (0..MAX_VALUES)
            .filter(|slot| {
                read_value(memory, *slot, &mut value) == self.bytes && value[0] == FILL
            })
            .count() as u64
    }
}
