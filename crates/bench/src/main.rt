//! Times parts of the library on large inputs, `bench run`, and machines that decide together, `bench clusters`. Figures differ from run to run, so without a word it times nothing and prints nothing to compare.
#![tactic(auto)]

mod appends;
mod clusters;
mod conflicts;
mod events;
mod halves;
mod letters;
mod memory;
mod timing;

use crate::timing::Work;
use anyhow::anyhow;
use appends::{Append, ReadBack};
use clusters::Cluster;
use conflicts::{Conflict, Hint};
use events::{Kind, Reaction};
use halves::Half;
use letters::{Copying, Decode, Encode, Take};
use std::env;
use timing::report;

// What is proposed, or put into a log, where its length does not matter.
const VALUE: [u8; 16] = [7; 16];

fn time_values(rt: &HostRuntime) -> anyhow::Result<()> {
    for (append, read, bytes) in [
        ("append an entry of 16 bytes", "read back 16 bytes", 16),
        ("append an entry of 256 bytes", "read back 256 bytes", 256),
    ] {
        let mut log = Append::new(rt.alloc(), append, bytes)?;
        report(rt, &mut log)?;
        report(rt, &mut ReadBack::new(read, log.into_memory(), bytes))?;
    }
    Ok(())
}

fn time_conflicts(rt: &HostRuntime) -> anyhow::Result<()> {
    report(rt, &mut Conflict::new(rt.alloc())?)?;
    report(rt, &mut Hint::new(rt.alloc())?)?;
    Ok(())
}

// How many times as long, in hundredths.
fn say_ratio(rt: &HostRuntime, name: &str, nanos: u64, copy: u64) -> anyhow::Result<()> {
    let hundredths = nanos.saturating_mul(100) / copy.max(1);
    println!(rt;
        "{name}: {}.{:02} times a copy",
        hundredths / 100,
        hundredths % 100
    )?;
    Ok(())
}

fn time_letters(rt: &HostRuntime) -> anyhow::Result<()> {
    let encode = report(rt, &mut Encode::new(rt.alloc())?)?;
    let decode = report(rt, &mut Decode::new(rt.alloc())?)?;
    let take = report(rt, &mut Take::new(rt.alloc())?)?;
    let copy = report(rt, &mut Copying::new(rt.alloc())?)?;
    say_ratio(rt, "encode", encode.best, copy.best)?;
    say_ratio(rt, "decode", decode.best, copy.best)?;
    say_ratio(rt, "take", take.best, copy.best)
}

fn time_halves(rt: &HostRuntime) -> anyhow::Result<()> {
    report(rt, &mut Half::rising(rt.alloc(), "half of 7", 7, 10_000)?)?;
    report(rt, &mut Half::rising(rt.alloc(), "half of 1,024", 1024, 4)?)?;
    Ok(())
}

// Decisions a second in the best round, and the letters of a round.
fn time_cluster(
    rt: &HostRuntime,
    name: &'static str,
    size: u64,
    window: u64,
) -> anyhow::Result<()> {
    let mut cluster = Cluster::new(rt.alloc(), name, size, window)?;
    let timing = report(rt, &mut cluster)?;
    let second = cluster.operations().saturating_mul(1_000_000_000);
    println!(rt;
        "  {} decisions a second (middle {}), {} letters",
        second / timing.best.max(1),
        second / timing.middle.max(1),
        cluster.letters()
    )?;
    Ok(())
}

fn time_clusters(rt: &HostRuntime) -> anyhow::Result<()> {
    for (name, size, window) in [
        ("1 machine, 1 at a time", 1, 1),
        ("1 machine, 16 at a time", 1, 16),
        ("3 machines, 1 at a time", 3, 1),
        ("3 machines, 16 at a time", 3, 16),
        ("5 machines, 1 at a time", 5, 1),
        ("5 machines, 16 at a time", 5, 16),
    ] {
        time_cluster(rt, name, size, window)?;
    }
    Ok(())
}

fn time_events(rt: &HostRuntime) -> anyhow::Result<()> {
    for (name, kind, entries) in [
        ("tick at 10 entries", Kind::Tick, 10),
        ("tick at 4,000 entries", Kind::Tick, 4000),
        ("proposal at 10 entries", Kind::Proposal, 10),
        ("proposal at 4,000 entries", Kind::Proposal, 4000),
        ("acknowledgement at 10 entries", Kind::Acknowledgement, 10),
        (
            "acknowledgement at 4,000 entries",
            Kind::Acknowledgement,
            4000,
        ),
    ] {
        report(rt, &mut Reaction::new(rt.alloc(), name, kind, entries)?)?;
    }
    Ok(())
}

fn time_parts(rt: &HostRuntime) -> anyhow::Result<()> {
    time_values(rt)?;
    time_conflicts(rt)?;
    time_letters(rt)?;
    time_halves(rt)
}

fn time_machines(rt: &HostRuntime) -> anyhow::Result<()> {
    time_clusters(rt)?;
    time_events(rt)
}

fn run(rt: &HostRuntime) -> anyhow::Result<()> {
    let mut args = env::args(rt)?;
    let _program = args.next();
    let Some(word) = args.next() else {
        eprintln!(rt; "bench run: times parts of the library")?;
        eprintln!(rt; "bench clusters: times machines that decide together")?;
        return Ok(());
    };
    match word.as_str() {
        "run" => time_parts(rt),
        "clusters" => time_machines(rt),
        _ => Err(anyhow!("the word is run or clusters")),
    }
}

fn main(rt: HostRuntime) -> anyhow::Result<()> {
    run(&rt)
}
