//! Blocks of entries as bytes: a table with a row for each entry, its term and the code of its content, and behind it the values. A block is read in place.
ghost use Rattle.std.specs.Prelude.{◌≡◌, ◌+◌, ◌*◌, ◌<◌, ◌≤◌, ⊤, true, false, length, Some, None};
ghost use Rattle.raft_log.specs.Block.{row_term, row_code, row_length, value_offset, ValuesEnd, block_fits, BlockRead, Holds};
ghost use Rattle.raft_log.specs.View.{entry_in};

use super::Term;
use super::bytes::{get, get_u64};
use std::alloc::AllocError;
use std::marker::Model;

/// The length of a row of the table.
pub const ROW_BYTES: usize = 10;
/// Where in a row the code of the content stands.
const CODE: usize = 8;
/// As many entries as fit a letter of 4,096 bytes whatever their values.
pub const MAX_BLOCK_ENTRIES: usize = 15;
/// The code of a value of 256 bytes.
const MAX_CODE: u16 = 257;

/// Entries as bytes, from the first byte to the last; clauses see the entries.
#[derive(Drop)]
pub struct Block<'a> {
    bytes: &'a [u8],
    count: usize,
}

impl<'a> Model for Block<'a> {
    ghost use Rattle.std.specs.Prelude.{◌≡◌, true, List};
    ghost use Rattle.raft_log.specs.Block.{Entry, block_entries, block_fits};

    ghost Value = { List Entry };

    ghost view = { λ b. block_entries b.bytes.now b.count };

    ghost invariant = { λ b. block_fits b.bytes.now b.count ≡ true };
}

// Of the same bytes, in place: nothing is copied.
impl<'a> Clone for Block<'a> {
    ghost is_clone = { λ block copy. copy ≡ block };

    ghost is_infallible = { λ _. ⊤ };

    fn clone(&self) -> Result<Self, AllocError> {
        Ok(Block {
            bytes: self.bytes,
            count: self.count,
        })
    }
}

impl<'a> Block<'a> {
    /// `None` where these bytes are no block of `count` entries.
    pub fn new(bytes: &'a [u8], count: usize) -> Option<Block<'a>>
        ensures { BlockRead bytes.now count result }
    {
        if is_valid_block(bytes, count) {
            Some(Block { bytes, count })
        } else {
            None
        }
    }

    /// How many entries.
    pub fn len(&self) -> usize
        ensures is { result ≡ length self.now }
        ensures few { result ≤ 15 }
    {
        self.count
    }

    /// The term of entry `i`, from 0.
    pub fn term(&self, i: usize) -> Term
        requires { i < length self.now }
        ensures { result.0 ≡ (entry_in self.now i).term }
    {
        entry_term(self.bytes, i)
    }

    /// The value of entry `i`; an empty one has none.
    pub fn value(&self, i: usize) -> Option<&[u8]>
        requires { i < length self.now }
        ensures { elim result [ Some value ↦ Holds (entry_in self.now i) (Some value.now) | None ↦ Holds (entry_in self.now i) None ] }
    {
        if entry_code(self.bytes, i) == 0 {
            return None;
        }
        let start = value_offset(self.bytes, self.count, i);
        Some(&self.bytes[start..start + entry_length(self.bytes, i)])
    }
}

/// The term of entry `i`.
pub fn entry_term(block: &[u8], i: usize) -> Term
    requires { 10 * i + 10 ≤ length block.now }
    ensures { result.0 ≡ row_term block.now i }
{
    Term(get_u64(block, ROW_BYTES * i))
}

/// 0 for an empty entry, or else one more than its value's length.
pub fn entry_code(block: &[u8], i: usize) -> u16
    requires { 10 * i + 10 ≤ length block.now }
    ensures { result ≡ row_code block.now i }
{
    u16::from_le_bytes(get(block, ROW_BYTES * i + CODE))
}

/// How many bytes the value of entry `i` has.
pub fn entry_length(block: &[u8], i: usize) -> usize
    requires { 10 * i + 10 ≤ length block.now }
    ensures is { result ≡ row_length block.now i }
    ensures short { result < 65536 }
{
    usize::from(entry_code(block, i).saturating_sub(1))
}

/// Where the value of entry `i` begins, in a block of `count` entries.
pub fn value_offset(block: &[u8], count: usize, i: usize) -> usize
    requires { (count ≤ 15) × ((10 * count ≤ length block.now) × (i ≤ count)) }
    ensures is { result ≡ value_offset block.now count i }
    ensures within { block_fits block.now count ≡ true → i < count → result + row_length block.now i ≤ length block.now }
{
    let mut offset = ROW_BYTES * count;
    for k in 0..i {
        offset += entry_length(block, k);
    }
    offset
}

// Where the values of a block end, if none has more than 256 bytes.
fn values_end(block: &[u8], count: usize) -> Option<usize>
    requires { (count ≤ 15) × (10 * count ≤ length block.now) }
    ensures { ValuesEnd block.now count result }
{
    let mut end = ROW_BYTES * count;
    for k in 0..count {
        if entry_code(block, k) > MAX_CODE {
            return None;
        }
        end += entry_length(block, k);
    }
    Some(end)
}

/// Are these bytes a block of `count` entries, from the first byte to the last?
#[tactic(auto, unfolding(crate::specs::Block::block_fits))]
pub fn is_valid_block(block: &[u8], count: usize) -> bool
    ensures { result ≡ block_fits block.now count }
{
    count <= MAX_BLOCK_ENTRIES
        && block.len() >= ROW_BYTES * count
        && values_end(block, count) == Some(block.len())
}
