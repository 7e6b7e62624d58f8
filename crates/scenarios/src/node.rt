//! One machine with its memory and what of it is safe; what it does is noted as text, and the letters that it sends are kept.
use crate::view::{LetterText, name};
use anyhow::{Context, bail};
use raft::header::ClusterSize;
use raft_log::MachineId;
use raft_log::layout::Memory;
use std::alloc::{AllocError, Global};
use std::fmt::Display;
use std::mem;
use together::Told;
use together::engine::{Event, MAX_LETTER_BYTES};
use together_several::{MEMORY_WORDS, step_event};

// Above any number of acts that an event begins.
const MAX_ACTS: u64 = 10_000;

#[derive(Drop)]
pub struct Letter {
    pub from: MachineId,
    pub to: MachineId,
    pub bytes: Vec<u8>,
}

#[derive(Drop)]
pub struct Node {
    heap: Global,
    id: MachineId,
    size: ClusterSize,
    memory: Vec<u64>,
    stable: Vec<u64>,
    out: Vec<u8>,
    sent: Vec<Letter>,
    acts: String,
    applied: String,
}

/// A memory is too large for the stack: its words, made as many as it has, are on the heap, and are seen as a memory here.
pub fn memory_of(words: &mut [u64]) -> Result<&mut Memory, AllocError> {
    words.as_mut_array().ok_or(AllocError)
}

// Makes a memory what another is; both have the same length.
fn copy(to: &mut [u64], from: &[u64]) {
    if to.len() == from.len() {
        to.copy_from_slice(from);
    }
}

impl Node {
    /// A machine that power has come to.
    pub fn started(heap: Global, id: MachineId, size: ClusterSize) -> anyhow::Result<Node> {
        let mut node = Node {
            heap,
            id,
            size,
            memory: vec![in heap; 0; MEMORY_WORDS]?,
            stable: vec![in heap; 0; MEMORY_WORDS]?,
            out: vec![in heap; 0; MAX_LETTER_BYTES]?,
            sent: Vec::new(heap),
            acts: String::new(heap),
            applied: String::new(heap),
        };
        node.power()?;
        Ok(node)
    }

    pub fn memory(&self) -> Result<&Memory, AllocError> {
        self.memory.as_array().ok_or(AllocError)
    }

    pub fn memory_mut(&mut self) -> Result<&mut Memory, AllocError> {
        memory_of(&mut self.memory)
    }

    /// Memory as it is counts as safe.
    pub fn keep(&mut self) {
        copy(&mut self.stable, &self.memory);
    }

    /// Power goes and comes: memory is what was last made safe.
    pub fn restart(&mut self) -> anyhow::Result<()> {
        copy(&mut self.memory, &self.stable);
        self.power()
    }

    /// What was done since this was last forgotten, as text.
    pub fn acts(&self) -> &str {
        self.acts.as_str()
    }

    pub fn forget_acts(&mut self) {
        self.acts.clear();
    }

    /// All values that it applied, in turn, each after a blank.
    pub fn applied(&self) -> &str {
        self.applied.as_str()
    }

    /// The letters since this was last asked.
    pub fn take_sent(&mut self) -> Vec<Letter> {
        mem::replace(&mut self.sent, Vec::new(self.heap))
    }

    fn power(&mut self) -> anyhow::Result<()> {
        self.react(Event::Power {
            id: self.id,
            size: self.size,
        })
    }

    /// An event, with all acts that it begins.
    pub fn react(&mut self, event: Event<'_>) -> anyhow::Result<()> {
        let mut told = self.told(event);
        for _ in 0..MAX_ACTS {
            match told {
                Told::Settle => self.settle()?,
                Told::Applies(number, long) => self.apply(number, long)?,
                Told::Flies(to, long) => self.send(MachineId(to), long)?,
                Told::No(number) => return self.note(format_args!("refused {number}")),
                Told::Shows(_) | Told::Done => return Ok(()),
            }
            told = self.told(Event::GoOn);
        }
        bail!("an event that does not end")
    }

    fn told(&mut self, event: Event<'_>) -> Told {
        step_event(&mut self.memory, event, &mut self.out)
    }

    fn note<A: Display + Drop>(&mut self, act: A) -> anyhow::Result<()> {
        if !self.acts.is_empty() {
            self.acts.push_str("; ")?;
        }
        write!(self.acts, "{act}")?;
        Ok(())
    }

    // What an act carries.
    fn carried(&self, long: u64) -> anyhow::Result<&[u8]> {
        self.out
            .get(..long as usize)
            .context("an act that carries too much")
    }

    fn settle(&mut self) -> anyhow::Result<()> {
        self.keep();
        self.note("settle")
    }

    fn apply(&mut self, number: u64, long: u64) -> anyhow::Result<()> {
        let value = String::from_utf8_lossy(self.heap, self.carried(long)?)?;
        write!(self.applied, " {value}")?;
        self.note(format_args!("apply {number} {value}"))
    }

    fn send(&mut self, to: MachineId, long: u64) -> anyhow::Result<()> {
        let bytes = self.carried(long)?.to_vec(self.heap)?;
        let name = name(to, self.size);
        self.note(format_args!("to {name}: {}", LetterText(&bytes)))?;
        let from = self.id;
        self.sent.push(Letter { from, to, bytes })?;
        Ok(())
    }
}
