//! The machine of several: one step of a machine, as the world outside sees it.
#![tactic(auto)]

ghost use Rattle.std.specs.Prelude.{◌≡◌, ◌≤◌, length};
ghost use Rattle.together_several.specs.Entry.{StepSays, EventSays, step_fits, own};
ghost use Rattle.together.specs.Entry.{Did};
ghost use Rattle.together.specs.Moves.{event_in, event_fits};

pub mod several;
#[cfg(test)]
mod tests;

use raft_log::layout::Memory;
use several::Several;
use together::Told;
use together::engine::{self, Event, step_of};

/// The length of a machine's memory, in words.
pub const MEMORY_WORDS: usize = raft_log::layout::MEMORY_WORDS;

/// The length of the memory that a machine starts with.
pub fn memory_words() -> usize
    ensures { result ≡ length own.start }
{
    MEMORY_WORDS
}

/// One step of a machine: the event `kind` (0 power for machine `a` of `b`; 1 propose `bytes`; 2 how far; 3 a letter, `bytes`, from machine `a`; 4 a tick; 5 go on
/// with what the last event began) changes its memory, and the first act that is due is told; what it carries stands at the front of `out`. Go on till `Done` or `No`.
/// `No(0)`, and nothing changed, for a memory of another length, a kind above 5, more than 4,096 bytes, or fewer than 4,096 lent.
pub fn step(memory: &mut [u64], kind: u64, a: u64, b: u64, bytes: &[u8], out: &mut [u8]) -> Told
    ensures { StepSays memory.old kind a b bytes.now out.old (step_fits memory.old kind bytes.now out.old) result memory.new out.new }
{
    step_of::<Several>(memory, kind, a, b, bytes, out)
}

/// One step by the event itself. `No(0)`, and nothing changed, for a memory of another length, an event that comes with more than 4,096 bytes, or fewer than 4,096 lent.
pub fn step_event(memory: &mut [u64], event: Event<'_>, out: &mut [u8]) -> Told
    ensures { EventSays memory.old (event_in event.entry) out.old (event_fits (length memory.old) (event_in event.entry) (length out.old)) result memory.new out.new }
{
    engine::step_event::<Several>(memory, event, out)
}

/// The same on a memory as an array, with room for a letter: nothing is refused for its length.
pub fn react(memory: &mut Memory, event: Event<'_>, out: &mut [u8]) -> Told
    requires { 4096 ≤ length out.old }
    ensures { Did (own.step memory.old (event_in event.entry)) result memory.new out.old out.new }
{
    engine::react::<Several>(memory, event, out)
}
