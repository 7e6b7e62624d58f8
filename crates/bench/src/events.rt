//! What one event costs the leader of three, with all its acts, at a short log and at a long one. After each the memory is set back, so that every event finds the same.
use crate::VALUE;
use crate::clusters::{Cluster, Machine};
use crate::memory::{memory_of, room_of};
use crate::timing::Work;
use anyhow::Context;
use messages::encoder::encode;
use messages::{MAX_LETTER_BYTES, Message};
use raft::rows::{MATCHED, NEXT};
use raft_log::layout::{APPLIED, COMMITTED, LAST_INDEX, MEMORY_WORDS, Memory};
use raft_log::{Index, MachineId, Term};
use std::alloc::{AllocError, Global};
use together::Told;
use together::engine::Event;
use together_several::react;

const OPERATIONS: u64 = 1000;

const MAX_ACTS: u64 = 100;
// Who acknowledges.
const FOLLOWER: usize = 2;

/// A tick, a proposal, or an acknowledgement that makes the last entry decided.
#[derive(Clone, Copy, PartialEq, Eq)]
pub enum Kind {
    Tick,
    Proposal,
    Acknowledgement,
}

impl Kind {
    // The event; an acknowledgement comes with its letter.
    fn event(self, letter: &[u8]) -> Event<'_> {
        match self {
            Kind::Tick => Event::Tick,
            Kind::Proposal => Event::Propose(&VALUE),
            Kind::Acknowledgement => Event::Letter {
                from: MachineId(FOLLOWER as u64),
                bytes: letter,
            },
        }
    }

    // Before an acknowledgement nobody has the last entry, so it is not decided.
    fn set_back(self, memory: &mut Memory, entries: u64) {
        memory[LAST_INDEX] = entries;
        if self == Kind::Acknowledgement {
            memory[COMMITTED] = entries.saturating_sub(1);
            memory[APPLIED] = entries.saturating_sub(2);
            for machine in [0, FOLLOWER] {
                memory[MATCHED + machine] = entries.saturating_sub(1);
                memory[NEXT + machine] = entries;
            }
        }
    }
}

#[derive(Drop)]
pub struct Reaction {
    name: &'static str,
    kind: Kind,
    entries: u64,
    leader: Machine,
    letter: Vec<u8>,
}

// The bytes of an acknowledgement in term 1.
fn acknowledgement(heap: Global, index: Index) -> Result<Vec<u8>, AllocError> {
    let mut words = vec![in heap; 0; MEMORY_WORDS]?;
    let memory = memory_of(&mut words)?;
    let mut out = vec![in heap; 0; MAX_LETTER_BYTES]?;
    let message = Message::AppendResponse {
        term: Term(1),
        index,
    };
    let long = encode(message, memory, &mut out);
    out.truncate(long);
    Ok(out)
}

// The leader of three with so many entries, of which the first is empty; all have them.
fn leader(heap: Global, entries: u64) -> anyhow::Result<Machine> {
    let mut cluster = Cluster::new(heap, "three", 3, 1)?;
    cluster.start()?;
    cluster.decide(entries.saturating_sub(1))?;
    cluster.into_leader().context("nobody leads")
}

impl Reaction {
    pub fn new(
        heap: Global,
        name: &'static str,
        kind: Kind,
        entries: u64,
    ) -> anyhow::Result<Reaction> {
        Ok(Reaction {
            name,
            kind,
            entries,
            leader: leader(heap, entries)?,
            letter: acknowledgement(heap, Index(entries))?,
        })
    }

    // How many letters flew.
    fn letters(&mut self) -> Result<u64, AllocError> {
        let memory = memory_of(&mut self.leader.memory)?;
        let out = room_of(&mut self.leader.out)?;
        self.kind.set_back(memory, self.entries);
        let mut told = react(memory, self.kind.event(&self.letter), out);
        let mut letters = 0u64;
        for _ in 0..MAX_ACTS {
            match told {
                Told::Flies(_, _) => letters = letters.saturating_add(1),
                Told::Applies(_, _) | Told::Settle => {}
                Told::Shows(_) | Told::Done | Told::No(_) => return Ok(letters),
            }
            told = react(memory, Event::GoOn, out);
        }
        Ok(letters)
    }

    fn is_right(&mut self) -> bool {
        self.letters() == Ok(2)
    }
}

impl Work for Reaction {
    fn name(&self) -> &'static str {
        self.name
    }

    fn operations(&self) -> u64 {
        OPERATIONS
    }

    fn round(&mut self) -> u64 {
        (0..OPERATIONS).filter(|_| self.is_right()).count() as u64
    }
}
