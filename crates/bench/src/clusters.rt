//! Clusters in one process: letters as bytes from one machine to another, nothing on disk. They elect machine 1 % size and decide values of 16 bytes.
use crate::VALUE;
use crate::memory::{memory_of, room_of};
use crate::timing::Work;
use raft::header::ClusterSize;
use raft_log::MachineId;
use std::alloc::{AllocError, Global};
use std::mem;
use together::Told;
use together::engine::{Event, MAX_LETTER_BYTES};
use together_several::{MEMORY_WORDS, react};

const DECISIONS: u64 = 4000;
// Till the owner of term 1 stands.
const TICKS: u64 = 10;
// Above any number of acts that an event begins, and of rounds of letters that follow from it.
const MAX_ACTS: u64 = 10_000;

/// Letters in flight: all their bytes in a row, and who sent which of them to whom.
/// A buffer for each letter is slower: 1,053 ns in place of 898 for a decision of three machines, 4,605 in place of 3,750 for one of five, 16 at a time.
#[derive(Drop)]
struct Post {
    bytes: Vec<u8>,
    heads: Vec<Head>,
}

#[derive(Clone, Copy)]
struct Head {
    from: MachineId,
    to: MachineId,
    start: usize,
    end: usize,
}

impl Post {
    fn new(heap: Global) -> Post {
        Post {
            bytes: Vec::new(heap),
            heads: Vec::new(heap),
        }
    }

    fn put(&mut self, from: MachineId, to: MachineId, letter: &[u8]) -> Result<(), AllocError> {
        let start = self.bytes.len();
        self.bytes.extend_from_slice(letter)?;
        self.heads.push(Head {
            from,
            to,
            start,
            end: self.bytes.len(),
        })?;
        Ok(())
    }

    fn letter(&self, head: Head) -> &[u8] {
        self.bytes.get(head.start..head.end).unwrap_or(b"")
    }

    fn clear(&mut self) {
        self.bytes.clear();
        self.heads.clear();
    }
}

// The number of the value that was applied now, if it is the one behind the last.
fn next_in_turn(last: Option<u64>, number: u64) -> Option<u64> {
    let next = last?.saturating_add(1);
    Some(next).filter(|next| *next == number)
}

#[derive(Drop)]
pub struct Machine {
    id: MachineId,
    pub memory: Vec<u64>,
    pub out: Vec<u8>,
    // The number of the value that it applied last; none once one came out of turn.
    applied: Option<u64>,
}

impl Machine {
    fn new(heap: Global, id: MachineId) -> Result<Machine, AllocError> {
        Ok(Machine {
            id,
            memory: vec![in heap; 0; MEMORY_WORDS]?,
            out: vec![in heap; 0; MAX_LETTER_BYTES]?,
            applied: Some(0),
        })
    }

    fn forget(&mut self) {
        self.memory.fill(0);
        self.applied = Some(0);
    }

    // An event, with all its acts; nothing is kept at a settle, as there is no disk.
    fn event(&mut self, post: &mut Post, event: Event<'_>) -> Result<(), AllocError> {
        let memory = memory_of(&mut self.memory)?;
        let out = room_of(&mut self.out)?;
        let mut told = react(memory, event, out);
        for _ in 0..MAX_ACTS {
            match told {
                Told::Flies(to, long) => {
                    let letter = out.get(..long as usize).unwrap_or(b"");
                    post.put(self.id, MachineId(to), letter)?;
                }
                Told::Applies(number, _) => self.applied = next_in_turn(self.applied, number),
                Told::Settle => {}
                Told::Shows(_) | Told::Done | Told::No(_) => return Ok(()),
            }
            told = react(memory, Event::GoOn, out);
        }
        Ok(())
    }
}

#[derive(Drop)]
pub struct Cluster {
    name: &'static str,
    // How many proposals are made before letters come.
    window: u64,
    machines: Vec<Machine>,
    flying: Post,
    coming: Post,
    letters: u64,
}

impl Cluster {
    pub fn new(
        heap: Global,
        name: &'static str,
        size: u64,
        window: u64,
    ) -> Result<Cluster, AllocError> {
        let machines = (0..size).map(|id| Machine::new(heap, MachineId(id)));
        Ok(Cluster {
            name,
            window,
            machines: machines.try_collect(heap)?,
            flying: Post::new(heap),
            coming: Post::new(heap),
            letters: 0,
        })
    }

    /// The letters of the last round.
    pub fn letters(&self) -> u64 {
        self.letters
    }

    /// The machine that leads.
    pub fn into_leader(self) -> Option<Machine> {
        let leader = self.leader();
        self.machines.into_iter().nth(leader.0 as usize)
    }

    fn leader(&self) -> MachineId {
        MachineId(u64::from(self.machines.len() > 1))
    }

    fn event(&mut self, id: MachineId, event: Event<'_>) -> Result<(), AllocError> {
        match self.machines.get_mut(id.0 as usize) {
            Some(machine) => machine.event(&mut self.flying, event),
            None => Ok(()),
        }
    }

    // The letters of a round come to their machines.
    fn hand_over(&mut self) -> Result<(), AllocError> {
        let round = &self.coming;
        self.letters = self.letters.saturating_add(round.heads.len() as u64);
        for head in round.heads.iter() {
            let event = Event::Letter {
                from: head.from,
                bytes: round.letter(*head),
            };
            if let Some(machine) = self.machines.get_mut(head.to.0 as usize) {
                machine.event(&mut self.flying, event)?;
            }
        }
        Ok(())
    }

    // Letters come till none is left.
    fn deliver(&mut self) -> Result<(), AllocError> {
        for _ in 0..MAX_ACTS {
            if self.flying.heads.is_empty() {
                return Ok(());
            }
            mem::swap(&mut self.flying, &mut self.coming);
            self.flying.clear();
            self.hand_over()?;
        }
        Ok(())
    }

    /// All machines anew, with a leader.
    pub fn start(&mut self) -> Result<(), AllocError> {
        let size = ClusterSize(self.machines.len() as u64);
        for machine in self.machines.iter_mut() {
            machine.forget();
            let power = Event::Power {
                id: machine.id,
                size,
            };
            machine.event(&mut self.flying, power)?;
        }
        for _ in 0..TICKS {
            self.event(self.leader(), Event::Tick)?;
            self.deliver()?;
        }
        self.letters = 0;
        Ok(())
    }

    /// Proposes so many values, and lets letters come after each window.
    pub fn decide(&mut self, decisions: u64) -> Result<(), AllocError> {
        for i in 0..decisions {
            self.event(self.leader(), Event::Propose(&VALUE))?;
            if (i + 1).is_multiple_of(self.window) {
                self.deliver()?;
            }
        }
        self.deliver()
    }

    /// How many decisions the machine that has fewest has applied, all in turn.
    pub fn fewest_applied(&self) -> u64 {
        let machines = self.machines.iter();
        let applied = machines.map(|machine| machine.applied.unwrap_or(0));
        applied.min().unwrap_or(0)
    }
}

impl Work for Cluster {
    fn name(&self) -> &'static str {
        self.name
    }

    fn operations(&self) -> u64 {
        DECISIONS
    }

    fn prepare(&mut self) {
        let _ = self.start();
    }

    fn round(&mut self) -> u64 {
        match self.decide(DECISIONS) {
            Ok(()) => self.fewest_applied(),
            Err(_) => 0,
        }
    }
}
