//! Writes entries of the log in memory as a block.
ghost use Rattle.std.specs.Prelude.{◌≡◌, ◌+◌, ◌*◌, ◌<◌, ◌≤◌, length};
ghost use Rattle.raft_log.specs.Bytes.{laid};
ghost use Rattle.raft_log.specs.Block.{content_code, content_bytes, row_bytes, table_bytes, values_bytes, block_bytes, log_content, log_entry, log_entries};

use super::Index;
use super::block::ROW_BYTES;
use super::bytes::{put, put_u64};
use super::entries::{slot, term};
use super::layout::Memory;
use super::values::{put_value, value_length};

// 0 for an empty entry, or else one more than its value's length.
fn content_code(memory: &Memory, index: Index) -> u16
    ensures { result ≡ content_code (log_content memory.now index.0) }
{
    match slot(memory, index) {
        Some(slot) => value_length(memory, slot) as u16 + 1,
        None => 0,
    }
}

fn write_row(memory: &Memory, index: Index, out: &mut [u8], at: usize)
    requires { at + 10 ≤ length out.old }
    ensures { out.new ≡ laid out.old at (row_bytes (log_entry memory.now index.0)) }
{
    put_u64(out, at, term(memory, index).0);
    put(out, at + 8, content_code(memory, index).to_le_bytes());
}

fn write_table(memory: &Memory, first: Index, count: usize, out: &mut [u8], at: usize)
    requires { (first.0 ≤ 8194) × ((count ≤ 15) × (at + 10 * count ≤ length out.old)) }
    ensures { out.new ≡ laid out.old at (table_bytes (log_entries memory.now first.0 count)) }
{
    for i in 0..count {
        write_row(memory, Index(first.0 + i as u64), out, at + ROW_BYTES * i);
    }
}

// Puts what an entry holds at `at`, and says where it ends.
fn write_content(memory: &Memory, index: Index, out: &mut [u8], at: usize) -> usize
    requires { at + 256 ≤ length out.old }
    ensures end { result ≡ at + length (content_bytes (log_content memory.now index.0)) }
    ensures short { result ≤ at + 256 }
    ensures put { out.new ≡ laid out.old at (content_bytes (log_content memory.now index.0)) }
{
    match slot(memory, index) {
        Some(slot) => put_value(memory, slot, out, at),
        None => at,
    }
}

fn write_values(memory: &Memory, first: Index, count: usize, out: &mut [u8], at: usize) -> usize
    requires { (first.0 ≤ 8194) × ((count ≤ 15) × (at + 256 * count ≤ length out.old)) }
    ensures end { result ≡ at + length (values_bytes (log_entries memory.now first.0 count)) }
    ensures short { result ≤ at + 256 * count }
    ensures put { out.new ≡ laid out.old at (values_bytes (log_entries memory.now first.0 count)) }
{
    let mut end = at;
    for i in 0..count {
        end = write_content(memory, Index(first.0 + i as u64), out, end);
    }
    end
}

/// Puts the entries from `first` on as a block at `at`, and says where it ends.
pub fn write_block(memory: &Memory, first: Index, count: usize, out: &mut [u8], at: usize) -> usize
    requires { (first.0 ≤ 8194) × ((count ≤ 15) × (at + 3990 ≤ length out.old)) }
    ensures end { result ≡ at + length (block_bytes (log_entries memory.now first.0 count)) }
    ensures short { result ≤ at + 3990 }
    ensures put { out.new ≡ laid out.old at (block_bytes (log_entries memory.now first.0 count)) }
{
    write_table(memory, first, count, out, at);
    write_values(memory, first, count, out, at + ROW_BYTES * count)
}
