//! Where things stand in a machine's memory. The machine's own words come first, then those of the log, then a row for each entry and a row for each value.

/// The machine's own words.
pub const HEADER_WORDS: usize = 64;

/// How many entries the log has.
pub const LAST_INDEX: usize = 64;
/// How many of them are known to be decided.
pub const COMMITTED: usize = 65;
/// The number of the last decision that was applied.
pub const APPLIED: usize = 66;

/// The row of entry 1: its term, and how many values stand up to it.
pub const ENTRIES: usize = 72;

pub const ENTRY_WORDS: usize = 2;
/// Room for as many values, with an empty entry before each and one behind the last.
pub const MAX_ENTRIES: u64 = 8193;

/// The row of value 1: its length in bytes, and 32 words of 8 bytes, the low byte first.
pub const VALUES: usize = 16458;

pub const VALUE_WORDS: usize = 33;

pub const MAX_VALUES: u64 = 4096;

pub const MAX_VALUE_BYTES: u64 = 256;

/// The length of the whole memory.
pub const MEMORY_WORDS: usize = 151_626;

/// A machine's memory; who calls lends it.
pub type Memory = [u64; MEMORY_WORDS];
