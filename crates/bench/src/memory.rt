//! A memory is too large for the stack: its words are on the heap, and are seen as a memory here; so is the room for a letter.
use raft_log::layout::Memory;
use std::alloc::AllocError;
use together::engine::MAX_LETTER_BYTES;

/// The memory of words that were made as many as it has.
pub fn memory_of(words: &mut [u64]) -> Result<&mut Memory, AllocError> {
    words.as_mut_array().ok_or(AllocError)
}

/// The room of bytes that were made as many as it has.
pub fn room_of(bytes: &mut [u8]) -> Result<&mut [u8; MAX_LETTER_BYTES], AllocError> {
    bytes.as_mut_array().ok_or(AllocError)
}
