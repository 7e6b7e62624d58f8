//! Memories and letters made by hand: a machine at a term, in a role, with a log; a letter from another.
ghost use Rattle.messages.specs.Message.{Sendable};

use crate::node::{Node, memory_of};
use messages::encoder::encode;
use messages::{MAX_LETTER_BYTES, Message};
use raft::header::{Machine, Role, load, store};
use raft::rows::{DUE, MATCHED, NEXT};
use raft_log::block::MAX_BLOCK_ENTRIES;
use raft_log::entries::{append_value, commit_to};
use raft_log::layout::{MEMORY_WORDS, Memory};
use raft_log::{Index, MachineId, Term};
use std::alloc::{AllocError, Global};

// No log that is made by hand is longer: each entry holds the letter of its place.
const LONGEST_LOG: u64 = 26;

/// An append as a leader sends it; of its entries only the terms are given.
#[derive(Clone, Copy)]
pub struct Offer<'a> {
    pub term: u64,
    pub prev: u64,
    pub prev_term: u64,
    pub commit: u64,
    pub entries: &'a [u64],
}

// Entries with a value for each term, behind what the log has; the first holds the letter of place `first`.
fn add_entries(memory: &mut Memory, first: usize, terms: &[u64]) {
    for (term, letter) in terms.iter().zip((b'a'..=b'z').skip(first)) {
        let _ = append_value(memory, Term(*term), &[letter]);
    }
}

// Entries before those of an append; what they are is not looked at.
fn fill(memory: &mut Memory, count: u64) {
    for _ in 0..count {
        let _ = append_value(memory, Term(0), b"");
    }
}

// The bytes of a letter, with entries of the log in `memory`.
fn letter_of(heap: Global, message: Message<usize>, memory: &Memory) -> Result<Vec<u8>, AllocError>
    requires { Sendable message }
{
    let mut out = vec![in heap; 0; MAX_LETTER_BYTES]?;
    let long = encode(message, memory, &mut out);
    out.truncate(long);
    Ok(out)
}

/// The bytes of an append; none of one beyond what is made by hand.
pub fn append_letter(heap: Global, offer: Offer<'_>) -> Result<Vec<u8>, AllocError> {
    let entries = offer.entries.len();
    if offer.prev > LONGEST_LOG || entries > MAX_BLOCK_ENTRIES {
        return Ok(Vec::new(heap));
    }
    let mut words = vec![in heap; 0; MEMORY_WORDS]?;
    let memory = memory_of(&mut words)?;
    fill(memory, offer.prev);
    add_entries(memory, offer.prev as usize, offer.entries);
    let message = Message::Append {
        term: Term(offer.term),
        prev_index: Index(offer.prev),
        prev_term: Term(offer.prev_term),
        commit: Index(offer.commit),
        entries,
    };
    letter_of(heap, message, memory)
}

/// The bytes of any other letter; none of an append.
pub fn letter(heap: Global, message: Message<usize>) -> Result<Vec<u8>, AllocError> {
    let mut words = vec![in heap; 0; MEMORY_WORDS]?;
    let memory = memory_of(&mut words)?;
    match message {
        Message::Append { .. } => Ok(Vec::new(heap)),
        _ => letter_of(heap, message, memory),
    }
}

impl Node {
    /// A log with these terms, each entry with a value, decided up to `commit`.
    pub fn set_log(&mut self, terms: &[u64], commit: u64) {
        let Ok(memory) = self.memory_mut() else {
            return;
        };
        add_entries(memory, 0, terms);
        commit_to(memory, Index(commit));
        self.keep();
    }

    pub fn set_role(&mut self, term: u64, role: Role) {
        let Ok(memory) = self.memory_mut() else {
            return;
        };
        let machine = load(memory);
        store(
            memory,
            Machine {
                term: Term(term),
                role,
                ..machine
            },
        );
        self.keep();
    }

    /// How far another machine is, as the leader knows.
    pub fn set_progress(&mut self, other: MachineId, matched: u64, next: u64) {
        let Ok(memory) = self.memory_mut() else {
            return;
        };
        let place = other.0 as usize;
        if let Some(word) = memory[MATCHED..NEXT].get_mut(place) {
            *word = matched;
        }
        if let Some(word) = memory[NEXT..DUE].get_mut(place) {
            *word = next;
        }
    }
}
