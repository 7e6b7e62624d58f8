//! What happens to a machine, and what any kind of machine makes of it, one act at a time.
ghost use Rattle.std.specs.Prelude.{◌≡◌, ◌≤◌, length};
ghost use Rattle.together.specs.Entry.{Did};
ghost use Rattle.together.specs.Moves.{Moves, moved, event_in, event_bytes, event_fits, EventRead, ProposedBy, SteppedIf, Stepped};

use super::Told;
use raft::header::ClusterSize;
use raft::proposal::Refusal;
use raft_log::layout::Memory;
use raft_log::{MachineId, Number};

/// The room that every letter fits.
pub const MAX_LETTER_BYTES: usize = 4096;

/// What happens to a machine.
#[derive(Clone, Copy, Debug, PartialEq, Eq)]
pub enum Event<'a> {
    /// Power comes to machine `id` of `size`.
    Power { id: MachineId, size: ClusterSize },
    /// A value is proposed.
    Propose(&'a [u8]),
    /// It is asked how far it has applied.
    HowFar,
    /// Bytes come from a machine.
    Letter { from: MachineId, bytes: &'a [u8] },
    /// Some time has passed.
    Tick,
    /// It goes on with what the last event began.
    GoOn,
}

impl<'a> Event<'a> {
    /// The event of a number: 0 power for machine `a` of `b`; 1 propose `bytes`; 2 how far; 3 a letter, `bytes`, from machine `a`; 4 a tick; 5 go on.
    #[tactic(auto, unfolding(crate::specs::Entry::event_of))]
    pub fn from_kind(kind: u64, a: u64, b: u64, bytes: &'a [u8]) -> Option<Event<'a>>
        ensures { EventRead kind a b bytes.entry.now result }
    {
        match kind {
            0 => Some(Event::Power {
                id: MachineId(a),
                size: ClusterSize(b),
            }),
            1 => Some(Event::Propose(bytes)),
            2 => Some(Event::HowFar),
            3 => Some(Event::Letter {
                from: MachineId(a),
                bytes,
            }),
            4 => Some(Event::Tick),
            5 => Some(Event::GoOn),
            _ => None,
        }
    }

    /// The bytes that come with it.
    pub fn bytes(self) -> &'a [u8]
        ensures { result.now ≡ event_bytes (event_in self.entry) }
    {
        match self {
            Event::Propose(bytes) | Event::Letter { bytes, .. } => bytes,
            Event::Power { .. } | Event::HowFar | Event::Tick | Event::GoOn => b"",
        }
    }
}

/// A kind of machine: what each event makes of its memory, and which act is due then.
pub trait Engine {
    ghost moves: { Moves };

    /// Power comes to machine `id` of `size`.
    fn power(memory: &mut Memory, id: MachineId, size: ClusterSize)
        ensures { memory.new ≡ moves.powered memory.old id.0 size.0 };

    /// Takes a proposal, or says why not; nothing is changed then.
    fn propose(memory: &mut Memory, bytes: &[u8]) -> Result<(), Refusal>
        ensures { ProposedBy moves memory.old bytes.now result memory.new };

    /// The last decision that was applied since power came, or 0.
    fn since(memory: &Memory) -> Number
        ensures { result.0 ≡ moves.since memory.now };

    /// Some time has passed.
    fn tick(memory: &mut Memory)
        ensures { memory.new ≡ moves.ticked memory.old };

    /// Takes bytes from a machine, and does the first act that is due.
    fn take_letter(memory: &mut Memory, from: MachineId, bytes: &[u8], out: &mut [u8]) -> Told
        requires { 4096 ≤ length out.old }
        ensures { Did (moves.letter_taken memory.old from.0 bytes.now) result memory.new out.old out.new };

    /// Does the next act that is due.
    fn go_on(memory: &mut Memory, out: &mut [u8]) -> Told
        requires { 4096 ≤ length out.old }
        ensures { Did (moves.gone_on memory.old) result memory.new out.old out.new };
}

/// An event changes memory, and the first act that is due is told; what it carries stands at the front of `out`. Go on till `Done` or `No`.
#[tactic(auto, unfolding(crate::specs::Entry::ActTold))]
pub fn react<E: Engine>(memory: &mut Memory, event: Event<'_>, out: &mut [u8]) -> Told
    requires { 4096 ≤ length out.old }
    ensures { Did (moved E.moves memory.old (event_in event.entry)) result memory.new out.old out.new }
{
    match event {
        Event::Power { id, size } => {
            E::power(memory, id, size);
            E::go_on(memory, out)
        }
        Event::Propose(bytes) => match E::propose(memory, bytes) {
            Ok(()) => E::go_on(memory, out),
            Err(why) => Told::No(u64::from(why)),
        },
        Event::HowFar => Told::Shows(E::since(memory).0),
        Event::Letter { from, bytes } => E::take_letter(memory, from, bytes, out),
        Event::Tick => {
            E::tick(memory);
            E::go_on(memory, out)
        }
        Event::GoOn => E::go_on(memory, out),
    }
}

/// The same on what is lent. `No(0)`, and nothing changed, for a memory of another length, an event that comes with more than 4,096 bytes, or fewer than 4,096 lent.
pub fn step_event<E: Engine>(memory: &mut [u64], event: Event<'_>, out: &mut [u8]) -> Told
    ensures { SteppedIf (event_fits (length memory.old) (event_in event.entry) (length out.old)) E.moves memory.old (event_in event.entry) result memory.new out.old out.new }
{
    let (long, lent) = (event.bytes().len(), out.len());
    if long > MAX_LETTER_BYTES || lent < MAX_LETTER_BYTES {
        return Told::No(0);
    }
    let Some(memory) = memory.as_mut_array() else {
        return Told::No(0);
    };
    react::<E>(memory, event, out)
}

/// The same by the event's number. `No(0)`, and nothing changed, for a memory of another length, a kind above 5, more than 4,096 bytes, or fewer than 4,096 lent.
pub fn step_of<E: Engine>(
    memory: &mut [u64],
    kind: u64,
    a: u64,
    b: u64,
    bytes: &[u8],
    out: &mut [u8],
) -> Told
    ensures { Stepped E.moves memory.old kind a b bytes.now out.old result memory.new out.new }
{
    if bytes.len() > MAX_LETTER_BYTES || out.len() < MAX_LETTER_BYTES {
        return Told::No(0);
    }
    let Some(event) = Event::from_kind(kind, a, b, bytes) else {
        return Told::No(0);
    };
    let Some(memory) = memory.as_mut_array() else {
        return Told::No(0);
    };
    react::<E>(memory, event, out)
}
