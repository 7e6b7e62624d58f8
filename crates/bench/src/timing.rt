//! Takes the time of a round of operations, again and again.
use anyhow::anyhow;
use std::fmt;
use std::time::Instant;

const ROUNDS: usize = 200;

/// What is timed. A round does so many operations, and says how many of them came out right.
pub trait Work {
    fn name(&self) -> &'static str;

    fn operations(&self) -> u64;

    /// What comes before a round and is not timed.
    fn prepare(&mut self) {}

    fn round(&mut self) -> u64;
}

/// Nanoseconds of a round: the best, the middle and the worst.
#[derive(Clone, Copy)]
pub struct Timing {
    pub best: u64,
    pub middle: u64,
    pub worst: u64,
}

// Tenths of a nanosecond.
#[derive(Clone, Copy)]
struct Tenths(u64);

impl Tenths {
    // What one of so many operations takes.
    fn of_each(nanos: u64, operations: u64) -> Tenths {
        Tenths(nanos.saturating_mul(10) / operations.max(1))
    }
}

impl fmt::Display for Tenths {
    fn fmt<W: fmt::Write>(&self, f: &mut fmt::Formatter<W>) -> fmt::Result {
        write!(f, "{}.{}", self.0 / 10, self.0 % 10)
    }
}

fn time_round<W: Work>(rt: &HostRuntime, work: &mut W) -> anyhow::Result<u64> {
    work.prepare();
    let start = Instant::now(rt)?;
    let right = work.round();
    let nanos = start.elapsed(rt)?.as_nanos();
    if right != work.operations() {
        return Err(anyhow!("an operation came out wrong"));
    }
    Ok(u64::try_from(nanos).unwrap_or(u64::MAX))
}

fn time<W: Work>(rt: &HostRuntime, work: &mut W) -> anyhow::Result<Timing> {
    let mut times = [0; ROUNDS];
    for time in times.iter_mut() {
        *time = time_round(rt, work)?;
    }
    times.sort_unstable();
    Ok(Timing {
        best: times[0],
        middle: times[ROUNDS / 2],
        worst: times[ROUNDS - 1],
    })
}

/// Times a work and prints nanoseconds for an operation.
pub fn report<W: Work>(rt: &HostRuntime, work: &mut W) -> anyhow::Result<Timing> {
    let timing = time(rt, work)?;
    let name = work.name();
    let best = Tenths::of_each(timing.best, work.operations());
    let middle = Tenths::of_each(timing.middle, work.operations());
    let worst = Tenths::of_each(timing.worst, work.operations());
    println!(rt; "{name}: {best} ns (middle {middle}, worst {worst})")?;
    Ok(timing)
}
