//! A full append letter, of 15 entries of 256 bytes, to bytes and back, beside a copy of as many bytes.
ghost use Rattle.std.specs.Prelude.{◌≤◌, length};

use crate::memory::memory_of;
use crate::timing::Work;
use messages::decoder::read;
use messages::encoder::encode;
use messages::{MAX_LETTER_BYTES, Message};
use raft_log::accept::{Append, maybe_append};
use raft_log::block::MAX_BLOCK_ENTRIES;
use raft_log::entries::append_value;
use raft_log::layout::{LAST_INDEX, MEMORY_WORDS, Memory};
use raft_log::{Index, Term};
use std::alloc::{AllocError, Global};

const VALUE: [u8; 256] = [7; 256];

const OPERATIONS: u64 = 1000;
// So many letters are decoded in turn.
const LETTERS: u64 = 8;
// 34 bytes of numbers, 15 rows of 10 bytes, 15 values of 256.
const LETTER_BYTES: usize = 4024;
// The low byte of a letter's term, behind its kind.
const TERM_AT: usize = 1;

fn full_append(term: Term, memory: &Memory, out: &mut [u8]) -> usize
    requires { 4096 ≤ length out.old }
    ensures { result ≤ 4096 }
{
    let message = Message::Append {
        term,
        prev_index: Index(0),
        prev_term: Term(0),
        commit: Index(0),
        entries: MAX_BLOCK_ENTRIES,
    };
    encode(message, memory, out)
}

// A log of as many entries as a letter takes.
fn full_log(heap: Global) -> Result<Vec<u64>, AllocError> {
    let mut words = vec![in heap; 0; MEMORY_WORDS]?;
    let memory = memory_of(&mut words)?;
    for _ in 0..MAX_BLOCK_ENTRIES {
        let _ = append_value(memory, Term(1), &VALUE);
    }
    Ok(words)
}

// The bytes of a full letter.
fn letter(heap: Global, term: Term) -> Result<Vec<u8>, AllocError> {
    let mut words = full_log(heap)?;
    let memory = memory_of(&mut words)?;
    let mut out = vec![in heap; 0; MAX_LETTER_BYTES]?;
    let end = full_append(term, memory, &mut out);
    out.truncate(end);
    Ok(out)
}

#[derive(Drop)]
pub struct Encode {
    memory: Vec<u64>,
    out: Vec<u8>,
}

impl Encode {
    pub fn new(heap: Global) -> Result<Encode, AllocError> {
        Ok(Encode {
            memory: full_log(heap)?,
            out: vec![in heap; 0; MAX_LETTER_BYTES]?,
        })
    }

    fn is_right(&mut self, term: u64) -> bool {
        let Ok(memory) = memory_of(&mut self.memory) else {
            return false;
        };
        let out: &mut [u8] = &mut self.out;
        out.len() == MAX_LETTER_BYTES
            && full_append(Term(term), memory, out) == LETTER_BYTES
            && u64::from(out[TERM_AT]) == term % 256
            && out[LETTER_BYTES - 1] == 7
    }
}

impl Work for Encode {
    fn name(&self) -> &'static str {
        "encode a full append letter"
    }

    fn operations(&self) -> u64 {
        OPERATIONS
    }

    fn round(&mut self) -> u64 {
        (0..OPERATIONS).filter(|i| self.is_right(*i)).count() as u64
    }
}

// Are these bytes an append with all its entries, of one of the terms in use?
fn is_append(bytes: &[u8]) -> bool {
    match read(bytes) {
        Some(Message::Append { term, entries, .. }) => {
            term < Term(LETTERS) && entries.len() == MAX_BLOCK_ENTRIES
        }
        _ => false,
    }
}

#[derive(Drop)]
pub struct Decode {
    letters: Vec<Vec<u8>>,
}

impl Decode {
    pub fn new(heap: Global) -> Result<Decode, AllocError> {
        let letters = (0..LETTERS).map(|term| letter(heap, Term(term)));
        Ok(Decode {
            letters: letters.try_collect(heap)?,
        })
    }
}

impl Work for Decode {
    fn name(&self) -> &'static str {
        "decode a full append letter"
    }

    fn operations(&self) -> u64 {
        OPERATIONS
    }

    fn round(&mut self) -> u64 {
        let letters = self.letters.iter().cycle().take(OPERATIONS as usize);
        letters.filter(|letter| is_append(letter)).count() as u64
    }
}

#[derive(Drop)]
pub struct Copying {
    from: Vec<u8>,
    to: Vec<u8>,
}

impl Copying {
    pub fn new(heap: Global) -> Result<Copying, AllocError> {
        Ok(Copying {
            from: letter(heap, Term(1))?,
            to: letter(heap, Term(1))?,
        })
    }

    fn is_right(&mut self, i: u64) -> bool {
        let from: &mut [u8] = &mut self.from;
        let to: &mut [u8] = &mut self.to;
        if from.len() != LETTER_BYTES || to.len() != LETTER_BYTES {
            return false;
        }
        let byte = (i % 256) as u8;
        from[TERM_AT] = byte;
        to.copy_from_slice(from);
        to[TERM_AT] == byte && to[LETTER_BYTES - 1] == 7
    }
}

impl Work for Copying {
    fn name(&self) -> &'static str {
        "copy as many bytes"
    }

    fn operations(&self) -> u64 {
        OPERATIONS
    }

    fn round(&mut self) -> u64 {
        (0..OPERATIONS).filter(|i| self.is_right(*i)).count() as u64
    }
}

#[derive(Drop)]
pub struct Take {
    memory: Vec<u64>,
    letter: Vec<u8>,
}

impl Take {
    pub fn new(heap: Global) -> Result<Take, AllocError> {
        Ok(Take {
            memory: vec![in heap; 0; MEMORY_WORDS]?,
            letter: letter(heap, Term(1))?,
        })
    }
}

// What a full letter asks a follower to append.
fn append_of(letter: &[u8]) -> Option<Append<'_>> {
    if letter.len() != LETTER_BYTES {
        return None;
    }
    match read(letter)? {
        Message::Append {
            prev_index,
            prev_term,
            commit,
            entries,
            ..
        } if entries.len() == MAX_BLOCK_ENTRIES => Some(Append {
            prev: prev_index,
            prev_term,
            commit,
            block: entries,
        }),
        _ => None,
    }
}

// Is an append taken by an empty log?
fn is_taken(memory: &mut Memory, append: &Append<'_>) -> bool {
    memory[LAST_INDEX] = 0;
    maybe_append(memory, append).is_ok()
}

impl Work for Take {
    fn name(&self) -> &'static str {
        "take its entries into an empty log"
    }

    fn operations(&self) -> u64 {
        OPERATIONS
    }

    fn round(&mut self) -> u64 {
        let Ok(memory) = memory_of(&mut self.memory) else {
            return 0;
        };
        let Some(append) = append_of(&self.letter) else {
            return 0;
        };
        (0..OPERATIONS)
            .filter(|_| is_taken(memory, &append))
            .count() as u64
    }
}
