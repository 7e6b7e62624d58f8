//! What more than half have, of few and of many.
use crate::timing::Work;
use raft_log::Index;
use std::alloc::{AllocError, Global};
use tracker::committed_index;

#[derive(Drop)]
pub struct Half {
    name: &'static str,
    indices: Vec<u64>,
    expected: Index,
    operations: u64,
}

impl Half {
    /// Of so many indexes, which rise.
    pub fn rising(
        heap: Global,
        name: &'static str,
        size: u64,
        operations: u64,
    ) -> Result<Half, AllocError> {
        Ok(Half {
            name,
            indices: (0..size).collect(heap)?,
            expected: Index(size.saturating_sub(1) / 2),
            operations,
        })
    }

    // The first index differs each time.
    fn is_right(&mut self, i: u64) -> bool {
        if let Some(first) = self.indices.first_mut() {
            *first = i % 2;
        }
        committed_index(&self.indices) == Some(self.expected)
    }
}

impl Work for Half {
    fn name(&self) -> &'static str {
        self.name
    }

    fn operations(&self) -> u64 {
        self.operations
    }

    fn round(&mut self) -> u64 {
        (0..self.operations).filter(|i| self.is_right(*i)).count() as u64
    }
}
