//! Machines that decide together: one step of a machine, as the world outside sees it.
#![tactic(auto)]

ghost use Rattle.std.specs.Prelude.{◌≡◌, [], ◌∷◌, length};
ghost use Rattle.together.specs.Cases.{HalfIs};
ghost use Rattle.together.specs.Entry.{HalfSays, half_fits, StepSays, EventSays, step_fits, smaller, own};
ghost use Rattle.together.specs.Moves.{event_in, event_fits};

pub mod alone;
pub mod engine;

use alone::Alone;
use engine::{Event, step_of};
use tracker::committed_index;

/// The length of a machine's memory, in words.
pub const MEMORY_WORDS: usize = raft_log::layout::MEMORY_WORDS;

/// The answer of `half`.
#[derive(Clone, Copy, Debug, PartialEq, Eq)]
pub enum Reply {
    Index(u64),
    // The number of the refusal.
    Refused(u64),
}

/// The acts of a machine, one a step.
#[derive(Clone, Copy, Debug, PartialEq, Eq)]
pub enum Told {
    // To which machine, how many bytes.
    Flies(u64, u64),
    Settle,
    // As which, how many bytes.
    Applies(u64, u64),
    Shows(u64),
    Done,
    No(u64),
}

/// The largest index that more than half have; refused for none of them, or for more than 1,024.
pub fn half(indices: &[u64]) -> Reply
    ensures { HalfSays indices.now (half_fits indices.now) result }
{
    let Some(index) = committed_index(indices) else {
        return Reply::Refused(1);
    };
    Reply::Index(index.0)
}

/// What the definitions say of these indexes.
pub fn half_rows()
    ensures five { HalfIs (2 ∷ 2 ∷ 2 ∷ 4 ∷ 5 ∷ []) (Reply.Index 2) }
    ensures one { HalfIs (5 ∷ []) (Reply.Index 5) }
    ensures two { HalfIs (3 ∷ 9 ∷ []) (Reply.Index 3) }
    ensures none { HalfIs [] (Reply.Refused 1) }
{}

/// The length of the memory that a machine starts with.
pub fn memory_words() -> usize
    ensures { result ≡ length own.start }
{
    MEMORY_WORDS
}

/// One step of a machine: the event `kind` (0 power for machine `a` of `b`; 1 propose `bytes`; 2 how far; 3 a letter, `bytes`, from machine `a`; 4 a tick; 5 go on
/// with what the last event began) changes its memory, and the first act that is due is told; what it carries stands at the front of `out`. Go on till `Done` or `No`.
/// `No(0)`, and nothing changed, for a memory of another length, a kind above 5, more than 4,096 bytes, or fewer than 4,096 lent.
pub fn step(memory: &mut [u64], kind: u64, a: u64, b: u64, bytes: &[u8], out: &mut [u8]) -> Told
    ensures { StepSays memory.old kind a b bytes.now out.old (step_fits memory.old kind bytes.now out.old) result memory.new out.new }
{
    step_of::<Alone>(memory, kind, a, b, bytes, out)
}

/// One step by the event itself. `No(0)`, and nothing changed, for a memory of another length, an event that comes with more than 4,096 bytes, or fewer than 4,096 lent.
pub fn step_event(memory: &mut [u64], event: Event<'_>, out: &mut [u8]) -> Told
    ensures { EventSays memory.old (event_in event.entry) out.old (event_fits (length memory.old) (event_in event.entry) (length out.old)) result memory.new out.new }
{
    engine::step_event::<Alone>(memory, event, out)
}

/// The smaller of two counts.
pub fn smaller_of(a: u64, b: u64) -> u64
    ensures { result ≡ smaller a b }
{
    a.min(b)
}

#[cfg(test)]
mod tests {
    use super::*;
    use engine::MAX_LETTER_BYTES;
    use raft::header::ClusterSize;
    use raft_log::MachineId;
    use raft_log::layout::Memory;
    use std::alloc::{AllocError, Global};
    use std::test::Fail;

    #[test]
    fn half_of_rows(rt: HostRuntime) {
        assert_eq!(rt; half(&[2, 2, 2, 4, 5]), Reply::Index(2));
        assert_eq!(rt; half(&[5]), Reply::Index(5));
        assert_eq!(rt; half(&[3, 9]), Reply::Index(3));
        assert_eq!(rt; half(&[]), Reply::Refused(1));
    }

    #[derive(Drop)]
    struct Lent {
        memory: Box<Memory>,
        out: Box<[u8; MAX_LETTER_BYTES]>,
    }

    impl Lent {
        // Machine `id` of `size`, to which power has come.
        fn new(heap: Global, id: u64, size: u64) -> Result<Lent, AllocError> {
            let mut lent = Lent {
                memory: Box::new(heap, [0; MEMORY_WORDS])?,
                out: Box::new(heap, [0; MAX_LETTER_BYTES])?,
            };
            lent.passes(Event::Power {
                id: MachineId(id),
                size: ClusterSize(size),
            });
            Ok(lent)
        }

        fn told(&mut self, event: Event<'_>) -> Told {
            step_event(&mut *self.memory, event, &mut *self.out)
        }

        // An event by its number.
        fn numbered(&mut self, kind: u64, a: u64, b: u64, bytes: &[u8]) -> Told {
            step(&mut *self.memory, kind, a, b, bytes, &mut *self.out)
        }

        // An event whose acts are not looked at.
        fn passes(&mut self, event: Event<'_>) {
            let _first = self.told(event);
            for _ in 0..5000 {
                if self.told(Event::GoOn) == Told::Done {
                    return;
                }
            }
        }
    }

    #[test]
    fn alone_it_leads_and_decides(rt: HostRuntime) -> Result<(), Fail> {
        let mut lent = Lent::new(rt.alloc(), 0, 1)?;
        assert_eq!(rt; lent.told(Event::Propose(b"too early")), Told::No(3));
        for _ in 0..10 {
            lent.passes(Event::Tick);
        }
        assert_eq!(rt; lent.told(Event::Propose(&[7; 257])), Told::No(6));
        assert_eq!(rt;
            lent.told(Event::Propose(b"hello")),
            Told::Settle,
            "nothing is applied before it is safe"
        );
        assert_eq!(rt; lent.told(Event::GoOn), Told::Applies(1, 5));
        assert_eq!(rt; lent.out[4], b'o');
        assert_eq!(rt; lent.told(Event::GoOn), Told::Done);
        assert_eq!(rt; lent.told(Event::HowFar), Told::Shows(1));
        Ok(())
    }

    #[test]
    fn a_log_can_be_full(rt: HostRuntime) -> Result<(), Fail> {
        let mut lent = Lent::new(rt.alloc(), 0, 1)?;
        for _ in 0..10 {
            lent.passes(Event::Tick);
        }
        for _ in 0..4096 {
            lent.passes(Event::Propose(b""));
        }
        assert_eq!(rt; lent.told(Event::Propose(b"")), Told::No(7));
        assert_eq!(rt; lent.told(Event::HowFar), Told::Shows(4096));
        assert_eq!(rt; lent.numbered(6, 0, 0, b""), Told::No(0), "no such kind");
        Ok(())
    }

    #[test]
    fn events_by_their_numbers(rt: HostRuntime) -> Result<(), Fail> {
        let mut lent = Lent::new(rt.alloc(), 0, 1)?;
        let _first = lent.numbered(0, 0, 1, b"");
        lent.passes(Event::GoOn);
        for _ in 0..10 {
            let _first = lent.numbered(4, 0, 0, b"");
            lent.passes(Event::GoOn);
        }
        assert_eq!(rt; lent.numbered(1, 0, 0, b"hello"), Told::Settle);
        assert_eq!(rt; lent.numbered(5, 0, 0, b""), Told::Applies(1, 5));
        assert_eq!(rt; lent.out[4], b'o');
        assert_eq!(rt; lent.numbered(5, 0, 0, b""), Told::Done);
        assert_eq!(rt; lent.numbered(3, 1, 0, b"no letter"), Told::Done);
        assert_eq!(rt; lent.numbered(2, 0, 0, b""), Told::Shows(1));
        assert_eq!(rt; lent.numbered(6, 0, 0, b""), Told::No(0), "no such kind");
        Ok(())
    }

    #[test]
    fn of_two_nobody_leads_yet(rt: HostRuntime) -> Result<(), Fail> {
        let mut lent = Lent::new(rt.alloc(), 1, 2)?;
        for _ in 0..40 {
            lent.passes(Event::Tick);
        }
        assert_eq!(rt; lent.told(Event::Propose(b"nobody agreed")), Told::No(3));
        Ok(())
    }
}
