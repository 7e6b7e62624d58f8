//! Machines and the letters between them. They are called by upstream's numbers, from 1.
use crate::node::{Letter, Node};
use crate::setup::{Offer, append_letter, letter};
use anyhow::{Context, bail};
use messages::Message;
use messages::decoder::read;
use raft::header::{ClusterSize, Machine, Role, load};
use raft_log::MachineId;
use std::alloc::Global;
use std::collections::VecDeque;
use together::engine::Event;

// No scenario needs as many letters.
const MAX_LETTERS: u64 = 10_000;
// Ten ticks for each term till a machine's own comes round.
const MAX_TICKS: u64 = 80;

#[derive(Drop)]
pub struct Net {
    heap: Global,
    size: ClusterSize,
    nodes: Vec<Node>,
    flying: VecDeque<Letter>,
    // Between which machines no letter comes through.
    cuts: Vec<(MachineId, MachineId)>,
    pub appends_drop: bool,
}

fn is_append(letter: &Letter) -> bool {
    matches!(read(&letter.bytes), Some(Message::Append { .. }))
}

// Is its term its own?
fn stands(machine: Machine<Role>) -> bool {
    !matches!(machine.role, Role::Follower(_, _))
}

impl Net {
    pub fn new(heap: Global, size: u64) -> anyhow::Result<Net> {
        let size = ClusterSize(size);
        let mut nodes = Vec::new(heap);
        for id in 0..size.0 {
            nodes.push(Node::started(heap, MachineId(id), size)?)?;
        }
        Ok(Net {
            heap,
            size,
            nodes,
            flying: VecDeque::new(heap),
            cuts: Vec::new(heap),
            appends_drop: false,
        })
    }

    /// The number that a machine has here.
    pub fn id(&self, name: u64) -> MachineId {
        MachineId(if name == self.size.0 { 0 } else { name })
    }

    fn node_of(&mut self, id: MachineId) -> anyhow::Result<&mut Node> {
        self.nodes.get_mut(id.0 as usize).context("no such machine")
    }

    pub fn node(&mut self, name: u64) -> anyhow::Result<&mut Node> {
        let id = self.id(name);
        self.node_of(id)
    }

    /// No letters between two machines.
    pub fn cut(&mut self, a: u64, b: u64) -> anyhow::Result<()> {
        let pair = (self.id(a), self.id(b));
        self.cuts.push(pair)?;
        Ok(())
    }

    /// No letters to or from a machine.
    pub fn isolate(&mut self, name: u64) -> anyhow::Result<()> {
        let id = self.id(name);
        let pairs = (0..self.size.0).map(|other| (id, MachineId(other)));
        self.cuts.extend(pairs)?;
        Ok(())
    }

    /// No letters at all.
    pub fn isolate_all(&mut self) -> anyhow::Result<()> {
        for name in 1..=self.size.0 {
            self.isolate(name)?;
        }
        Ok(())
    }

    /// All letters come through again.
    pub fn heal(&mut self) {
        self.cuts.clear();
        self.appends_drop = false;
    }

    fn comes_through(&self, letter: &Letter) -> bool {
        let Letter { from, to, .. } = *letter;
        let is_cut = self.cuts.contains(&(from, to)) || self.cuts.contains(&(to, from));
        !is_cut && !(self.appends_drop && is_append(letter))
    }

    // An event at a machine; the letters that it sends fly.
    fn react(&mut self, id: MachineId, event: Event<'_>) -> anyhow::Result<()> {
        let node = self.node_of(id)?;
        node.react(event)?;
        let sent = node.take_sent();
        self.flying.extend(sent)?;
        Ok(())
    }

    fn tick(&mut self, name: u64) -> anyhow::Result<()> {
        self.react(self.id(name), Event::Tick)
    }

    // A letter comes, if it comes through; the letters that follow from it fly.
    fn hand_over(&mut self, letter: &Letter) -> anyhow::Result<()> {
        if !self.comes_through(letter) {
            return Ok(());
        }
        self.react(
            letter.to,
            Event::Letter {
                from: letter.from,
                bytes: &letter.bytes,
            },
        )
    }

    /// Letters come till none is left.
    pub fn deliver(&mut self) -> anyhow::Result<()> {
        for _ in 0..MAX_LETTERS {
            let Some(letter) = self.flying.pop_front() else {
                return Ok(());
            };
            self.hand_over(&letter)?;
        }
        bail!("letters without end")
    }

    /// Ticks, and after each all letters that follow from it.
    pub fn ticks(&mut self, name: u64, times: u64) -> anyhow::Result<()> {
        for _ in 0..times {
            self.tick(name)?;
            self.deliver()?;
        }
        Ok(())
    }

    pub fn propose(&mut self, name: u64, value: &[u8]) -> anyhow::Result<()> {
        self.react(self.id(name), Event::Propose(value))?;
        self.deliver()
    }

    /// Bytes come from one machine to another, whatever is cut, and then all letters that follow.
    pub fn post_bytes(&mut self, from: u64, to: u64, bytes: &[u8]) -> anyhow::Result<()> {
        let from = self.id(from);
        self.react(self.id(to), Event::Letter { from, bytes })?;
        self.deliver()
    }

    pub fn post(&mut self, from: u64, to: u64, message: Message<usize>) -> anyhow::Result<()> {
        let bytes = letter(self.heap, message)?;
        self.post_bytes(from, to, &bytes)
    }

    pub fn post_append(&mut self, from: u64, to: u64, offer: Offer<'_>) -> anyhow::Result<()> {
        let bytes = append_letter(self.heap, offer)?;
        self.post_bytes(from, to, &bytes)
    }

    fn machine(&mut self, name: u64) -> anyhow::Result<Machine<Role>> {
        Ok(load(self.node(name)?.memory()?))
    }

    /// Ticks a machine till it stands in a term of its own; what it says on the way is lost, and so are letters that fly. One that leads goes on leading.
    pub fn stand(&mut self, name: u64) -> anyhow::Result<()> {
        let before = self.machine(name)?;
        for _ in 0..MAX_TICKS {
            self.flying.clear();
            self.tick(name)?;
            let now = self.machine(name)?;
            if before.role == Role::Leader || stands(now) && now.term > before.term {
                return Ok(());
            }
        }
        bail!("it does not stand")
    }

    /// The same, and then all letters come.
    pub fn campaign(&mut self, name: u64) -> anyhow::Result<()> {
        self.stand(name)?;
        self.deliver()
    }
}
