//! Values in memory: a row has a length of up to 256 and the bytes, eight to a word, the low byte first.
ghost use Rattle.std.specs.Prelude.{◌≡◌, ℕ, ◌+◌, ◌*◌, ◌/◌, ◌%◌, ◌<◌, ◌≤◌, ◌++◌, length, take, drop};
ghost use Rattle.raft_log.specs.Layout.{value_row};
ghost use Rattle.raft_log.specs.Bytes.{eight, laid};
ghost use Rattle.raft_log.specs.Values.{bytes_at, value_length, value_at, byte_or, word_of, value_put};

use super::bytes::{get_u64, put_u64};
use super::layout::{MAX_VALUE_BYTES, Memory, VALUE_WORDS, VALUES};
use std::array;

fn row_of(slot: u64) -> usize
    requires { slot < 4096 }
    ensures { result ≡ value_row slot }
{
    VALUES + VALUE_WORDS * slot as usize
}

/// How long the value in a slot is; the slots count from 0.
pub fn value_length(memory: &Memory, slot: u64) -> usize
    requires { slot < 4096 }
    ensures is { result ≡ value_length memory.now slot }
    ensures short { result ≤ 256 }
{
    memory[row_of(slot)].min(MAX_VALUE_BYTES) as usize
}

// Puts whole words as bytes at `at`.
fn put_words(memory: &Memory, base: usize, count: usize, out: &mut [u8], at: usize)
    requires { (count ≤ 32) × ((base + count ≤ length memory.now) × (at + 8 * count ≤ length out.old)) }
    ensures { out.new ≡ laid out.old at (bytes_at memory.now base (8 * count)) }
{
    for j in 0..count {
        put_u64(out, at + 8 * j, memory[base + j]);
    }
}

// Puts the first bytes of a word at `at`.
fn put_part(word: u64, count: usize, out: &mut [u8], at: usize)
    requires { (count ≤ 8) × (at + count ≤ length out.old) }
    ensures { out.new ≡ laid out.old at (take count (eight word)) }
{
    out[at..at + count].copy_from_slice(&word.to_le_bytes()[..count]);
}

fn put_bytes(memory: &Memory, base: usize, count: usize, out: &mut [u8], at: usize)
    requires { (count ≤ 256) × ((base + 32 ≤ length memory.now) × (at + count ≤ length out.old)) }
    ensures { out.new ≡ laid out.old at (bytes_at memory.now base count) }
{
    let whole = count / 8;
    put_words(memory, base, whole, out, at);
    if count % 8 > 0 {
        put_part(memory[base + whole], count % 8, out, at + 8 * whole);
    }
}

/// Puts the value of a slot at `at`, and says where it ends.
pub(crate) fn put_value(memory: &Memory, slot: u64, out: &mut [u8], at: usize) -> usize
    requires { (slot < 4096) × (at + 256 ≤ length out.old) }
    ensures end { result ≡ at + length (value_at memory.now slot) }
    ensures short { result ≤ at + 256 }
    ensures put { out.new ≡ laid out.old at (value_at memory.now slot) }
{
    let count = value_length(memory, slot);
    put_bytes(memory, row_of(slot) + 1, count, out, at);
    at + count
}

/// Puts the value of a slot at the front of `out`, and says how long it is.
#[tactic(auto, unfolding(crate::specs::Bytes::laid))]
pub fn read_value(memory: &Memory, slot: u64, out: &mut [u8]) -> usize
    requires { (slot < 4096) × (256 ≤ length out.old) }
    ensures long { result ≡ length (value_at memory.now slot) }
    ensures read { out.new ≡ value_at memory.now slot ++ drop result out.old }
{
    put_value(memory, slot, out, 0)
}

// Past the end a byte counts as 0.
fn byte_or_zero(bytes: &[u8], i: usize) -> u8
    ensures { result ≡ byte_or bytes.now i }
{
    bytes.get(i).copied().unwrap_or(0)
}

// Eight bytes as a word.
fn word_of(bytes: &[u8], j: usize) -> u64
    requires { j < 32 }
    ensures { result ≡ word_of bytes.now j }
{
    u64::from_le_bytes(array::from_fn(|k| byte_or_zero(bytes, 8 * j + k)))
}

/// Puts a value of up to 256 bytes into a slot.
pub fn write_value(memory: &mut Memory, slot: u64, bytes: &[u8])
    requires { (slot < 4096) × (length bytes.now ≤ 256) }
    ensures { memory.new ≡ value_put memory.old slot bytes.now }
{
    let row = row_of(slot);
    memory[row] = bytes.len() as u64;
    let whole = bytes.len() / 8;
    for j in 0..whole {
        memory[row + 1 + j] = get_u64(bytes, 8 * j);
    }
    if bytes.len() % 8 > 0 {
        memory[row + 1 + whole] = word_of(bytes, whole);
    }
}
