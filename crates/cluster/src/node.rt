//! A machine with its memory, what of it is safe, and a place for what its acts carry.
use anyhow::{Context, anyhow};
use raft::header::ClusterSize;
use raft_log::MachineId;
use std::alloc::{AllocError, Global};
use together::engine::{Event, MAX_LETTER_BYTES};
use together::{MEMORY_WORDS, Told, step_event};

// Above any number of acts that an event begins.
const MAX_ACTS: u64 = 10_000;

// A memory is too large for the stack.
#[derive(Drop)]
pub struct Node {
    memory: Vec<u64>,
    stable: Vec<u64>,
    out: Vec<u8>,
}

// Makes a memory what another is; both have the same length.
fn copy(to: &mut [u64], from: &[u64]) {
    if to.len() == from.len() {
        to.copy_from_slice(from);
    }
}

impl Node {
    pub fn new(heap: Global) -> Result<Node, AllocError> {
        Ok(Node {
            memory: vec![in heap; 0; MEMORY_WORDS]?,
            stable: vec![in heap; 0; MEMORY_WORDS]?,
            out: vec![in heap; 0; MAX_LETTER_BYTES]?,
        })
    }

    /// Power goes: memory is what was last made safe.
    pub fn stop(&mut self) {
        copy(&mut self.memory, &self.stable);
    }

    pub fn power(
        &mut self,
        rt: &HostRuntime,
        id: MachineId,
        size: ClusterSize,
    ) -> anyhow::Result<()> {
        self.event(rt, Event::Power { id, size })
    }

    pub fn propose(&mut self, rt: &HostRuntime, value: &[u8]) -> anyhow::Result<()> {
        self.event(rt, Event::Propose(value))
    }

    pub fn how_far(&mut self, rt: &HostRuntime) -> anyhow::Result<()> {
        self.event(rt, Event::HowFar)
    }

    pub fn tick(&mut self, rt: &HostRuntime) -> anyhow::Result<()> {
        self.event(rt, Event::Tick)
    }

    // One event, act by act, till it is done or refused.
    fn event(&mut self, rt: &HostRuntime, event: Event<'_>) -> anyhow::Result<()> {
        let mut told = self.told(event);
        for _ in 0..MAX_ACTS {
            if !self.act(rt, told)? {
                return Ok(());
            }
            told = self.told(Event::GoOn);
        }
        Err(anyhow!("an event that does not end"))
    }

    fn told(&mut self, event: Event<'_>) -> Told {
        step_event(&mut self.memory, event, &mut self.out)
    }

    // Does an act, and says whether more may follow.
    fn act(&mut self, rt: &HostRuntime, told: Told) -> anyhow::Result<bool> {
        match told {
            Told::Settle => copy(&mut self.stable, &self.memory),
            Told::Applies(number, long) => {
                let value = self.out.get(..long as usize);
                let value = value.context("a value beyond its room")?;
                let value = String::from_utf8_lossy(rt.alloc(), value)?;
                println!(rt; "  applied {number}: {value}")?;
            }
            Told::Shows(number) => println!(rt; "applied so far: {number}")?,
            Told::Flies(to, _) => println!(rt; "  a letter to {to}")?,
            Told::Done => return Ok(false),
            Told::No(number) => {
                println!(rt; "  refused: {number}")?;
                return Ok(false);
            }
        }
        Ok(true)
    }
}
