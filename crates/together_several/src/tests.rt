//! Machines alone and together: the test carries their letters.
use super::several::Several;
use super::*;
use raft::header::ClusterSize;
use raft_log::MachineId;
use raft_log::layout::Memory;
use std::alloc::{AllocError, Global};
use std::collections::VecDeque;
use std::test::Fail;
use together::engine::{Event, MAX_LETTER_BYTES};

// Above any number of acts that an event begins, and of letters that it leads to.
const MAX_ACTS: u64 = 5000;

// A machine's memory, and a place for what its acts carry.
#[derive(Drop)]
struct Lent {
    memory: Box<Memory>,
    out: Box<[u8; MAX_LETTER_BYTES]>,
}

impl Lent {
    fn new(heap: Global) -> Result<Lent, AllocError> {
        Ok(Lent {
            memory: Box::new(heap, [0; MEMORY_WORDS])?,
            out: Box::new(heap, [0; MAX_LETTER_BYTES])?,
        })
    }

    fn told(&mut self, event: Event<'_>) -> Told {
        step_event(&mut *self.memory, event, &mut *self.out)
    }

    // An event by its number.
    fn numbered(&mut self, kind: u64, a: u64, b: u64, bytes: &[u8]) -> Told {
        step(&mut *self.memory, kind, a, b, bytes, &mut *self.out)
    }

    // An event whose acts are not looked at.
    fn passes(&mut self, event: Event<'_>) {
        let _first = self.told(event);
        for _ in 0..MAX_ACTS {
            if self.told(Event::GoOn) == Told::Done {
                return;
            }
        }
    }
}

fn power(id: u64, size: u64) -> Event<'static> {
    Event::Power {
        id: MachineId(id),
        size: ClusterSize(size),
    }
}

fn letter(from: u64, bytes: &[u8]) -> Event<'_> {
    Event::Letter {
        from: MachineId(from),
        bytes,
    }
}

#[test]
fn alone_it_leads_and_decides(rt: HostRuntime) -> Result<(), Fail> {
    let mut lent = Lent::new(rt.alloc())?;
    lent.passes(power(0, 1));
    assert_eq!(rt; lent.told(Event::Propose(b"too early")), Told::No(3));
    for _ in 0..10 {
        lent.passes(Event::Tick);
    }
    assert_eq!(rt; lent.told(Event::Propose(&[7; 257])), Told::No(6));
    assert_eq!(rt;
        lent.told(Event::Propose(b"hello")),
        Told::Settle,
        "nothing is applied before it is safe"
    );
    assert_eq!(rt; lent.told(Event::GoOn), Told::Applies(1, 5));
    assert_eq!(rt; lent.out[4], b'o');
    assert_eq!(rt; lent.told(Event::GoOn), Told::Done);
    assert_eq!(rt; lent.told(Event::HowFar), Told::Shows(1));
    Ok(())
}

#[test]
fn a_log_can_be_full(rt: HostRuntime) -> Result<(), Fail> {
    let mut lent = Lent::new(rt.alloc())?;
    lent.passes(power(0, 1));
    for _ in 0..10 {
        lent.passes(Event::Tick);
    }
    for _ in 0..4096 {
        lent.passes(Event::Propose(b""));
    }
    assert_eq!(rt;
        lent.told(Event::Propose(b"")),
        Told::No(7),
        "one more than 4,096"
    );
    assert_eq!(rt; lent.told(Event::HowFar), Told::Shows(4096));
    assert_eq!(rt; lent.numbered(6, 0, 0, b""), Told::No(0), "no such kind");
    Ok(())
}

#[test]
fn events_by_their_numbers(rt: HostRuntime) -> Result<(), Fail> {
    let mut lent = Lent::new(rt.alloc())?;
    let _first = lent.numbered(0, 0, 1, b"");
    lent.passes(Event::GoOn);
    for _ in 0..10 {
        let _first = lent.numbered(4, 0, 0, b"");
        lent.passes(Event::GoOn);
    }
    assert_eq!(rt; lent.numbered(1, 0, 0, b"hello"), Told::Settle);
    assert_eq!(rt; lent.numbered(5, 0, 0, b""), Told::Applies(1, 5));
    assert_eq!(rt; lent.out[4], b'o');
    assert_eq!(rt; lent.numbered(5, 0, 0, b""), Told::Done);
    assert_eq!(rt; lent.numbered(3, 1, 0, b"no letter"), Told::Done);
    assert_eq!(rt; lent.numbered(2, 0, 0, b""), Told::Shows(1));
    assert_eq!(rt; lent.numbered(6, 0, 0, b""), Told::No(0), "no such kind");
    Ok(())
}

// A letter on its way.
#[derive(Drop)]
struct Post {
    from: u64,
    to: u64,
    bytes: Vec<u8>,
}

// Machines, and the letters between them.
#[derive(Drop)]
struct Net {
    heap: Global,
    machines: Vec<Lent>,
    wire: VecDeque<Post>,
}

impl Net {
    // So many machines, all of them on.
    fn new(heap: Global, size: u64) -> Result<Net, Fail> {
        let mut net = Net {
            heap,
            machines: Vec::new(heap),
            wire: VecDeque::new(heap),
        };
        for id in 0..size {
            net.machines.push(Lent::new(heap)?)?;
            net.event(id, power(id, size))?;
        }
        Ok(net)
    }

    fn told(&mut self, id: u64, event: Event<'_>) -> Result<Told, Fail> {
        let Some(lent) = self.machines.get_mut(id as usize) else {
            return Err(Fail::new("no such machine"));
        };
        let told = lent.told(event);
        if let Told::Flies(to, long) = told {
            let Some(bytes) = lent.out.get(..long as usize) else {
                return Err(Fail::new("a letter beyond its room"));
            };
            let bytes = Vec::from_slice(self.heap, bytes)?;
            self.wire.push_back(Post {
                from: id,
                to,
                bytes,
            })?;
        }
        Ok(told)
    }

    // An event, with all its acts.
    fn event(&mut self, id: u64, event: Event<'_>) -> Result<(), Fail> {
        let mut told = self.told(id, event)?;
        for _ in 0..MAX_ACTS {
            match told {
                Told::Done => return Ok(()),
                Told::No(_) => return Err(Fail::new("refused")),
                _ => {}
            }
            told = self.told(id, Event::GoOn)?;
        }
        Err(Fail::new("an event that does not end"))
    }

    // All letters come, and those that they lead to; none comes to or from the machine that is lost.
    fn carry(&mut self, lost: u64) -> Result<(), Fail> {
        for _ in 0..MAX_ACTS {
            let Some(post) = self.wire.pop_front() else {
                return Ok(());
            };
            if post.from != lost && post.to != lost {
                self.event(post.to, letter(post.from, &post.bytes))?;
            }
        }
        Err(Fail::new("letters without end"))
    }

    // So many ticks of each machine but the one that is lost.
    fn ticks(&mut self, count: u64, lost: u64) -> Result<(), Fail> {
        for _ in 0..count {
            for id in 0..self.machines.len() as u64 {
                if id != lost {
                    self.event(id, Event::Tick)?;
                }
            }
            self.carry(lost)?;
        }
        Ok(())
    }

    fn how_far(&mut self, id: u64) -> Result<Told, Fail> {
        self.told(id, Event::HowFar)
    }
}

const NONE: u64 = 7;

#[test]
fn two_elect_a_leader_and_decide(rt: HostRuntime) -> Result<(), Fail> {
    let mut net = Net::new(rt.alloc(), 2)?;
    net.ticks(10, NONE)?;
    assert_eq!(rt; net.told(0, Event::Propose(b"not here"))?, Told::No(3));
    assert_eq!(rt;
        net.told(1, Event::Propose(b"hello"))?,
        Told::Settle,
        "nothing flies before it is safe"
    );
    assert_eq!(rt; net.told(1, Event::GoOn)?, Told::Flies(0, 49));
    assert_eq!(rt;
        net.told(1, Event::GoOn)?,
        Told::Done,
        "one of two does not decide"
    );
    assert_eq!(rt; net.how_far(1)?, Told::Shows(0));
    net.carry(NONE)?;
    assert_eq!(rt; net.how_far(0)?, Told::Shows(1));
    assert_eq!(rt; net.how_far(1)?, Told::Shows(1));
    Ok(())
}

#[test]
fn a_vote_is_safe_before_it_flies(rt: HostRuntime) -> Result<(), Fail> {
    let mut net = Net::new(rt.alloc(), 2)?;
    for _ in 0..10 {
        net.event(1, Event::Tick)?;
    }
    let Some(post) = net.wire.pop_back() else {
        return Err(Fail::new("nobody asks for a vote"));
    };
    assert_eq!(rt;
        net.told(0, letter(1, &post.bytes))?,
        Told::Settle,
        "a vote is made safe first"
    );
    assert_eq!(rt; net.told(0, Event::GoOn)?, Told::Flies(1, 10));
    Ok(())
}

#[test]
fn three_go_on_without_one(rt: HostRuntime) -> Result<(), Fail> {
    let mut net = Net::new(rt.alloc(), 3)?;
    net.ticks(10, 2)?;
    net.event(1, Event::Propose(b"first"))?;
    net.carry(2)?;
    assert_eq!(rt; net.how_far(0)?, Told::Shows(1));
    assert_eq!(rt; net.how_far(1)?, Told::Shows(1));
    assert_eq!(rt; net.how_far(2)?, Told::Shows(0));
    net.ticks(1, NONE)?;
    assert_eq!(rt; net.how_far(2)?, Told::Shows(1));
    net.ticks(10, 1)?;
    net.event(2, Event::Propose(b"second"))?;
    net.carry(1)?;
    assert_eq!(rt; net.how_far(0)?, Told::Shows(2));
    assert_eq!(rt; net.how_far(2)?, Told::Shows(2));
    net.ticks(2, NONE)?;
    assert_eq!(rt; net.how_far(1)?, Told::Shows(2));
    Ok(())
}

#[test]
fn what_is_no_letter_changes_nothing(rt: HostRuntime) -> Result<(), Fail> {
    let mut net = Net::new(rt.alloc(), 2)?;
    net.ticks(10, NONE)?;
    net.event(1, Event::Propose(b"hello"))?;
    let Some(post) = net.wire.pop_front() else {
        return Err(Fail::new("no letter"));
    };
    let Some(lent) = net.machines.get_mut(0) else {
        return Err(Fail::new("no machine"));
    };
    let before = Vec::from_slice(rt.alloc(), &*lent.memory)?;
    assert_eq!(rt; lent.told(letter(1, b"no letter")), Told::Done);
    let Some(part) = post.bytes.get(..40) else {
        return Err(Fail::new("a short letter"));
    };
    assert_eq!(rt;
        lent.told(letter(1, part)),
        Told::Done,
        "a part of a letter"
    );
    assert_eq!(rt;
        lent.told(letter(0, &post.bytes)),
        Told::Done,
        "a letter from itself"
    );
    assert!(rt; before.as_slice() == &lent.memory[..]);
    assert_eq!(rt;
        lent.told(letter(1, &post.bytes)),
        Told::Settle,
        "the letter itself"
    );
    Ok(())
}
