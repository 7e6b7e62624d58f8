//! One machine decides the lines of a file, or a few of its own, is stopped, and goes on from what is safe.
#![tactic(auto)]

mod node;

use node::Node;
use raft::header::ClusterSize;
use raft_log::MachineId;
use std::{env, fs};

const TICKS_TO_LEAD: u64 = 10;

// What is proposed if no file is named.
const LINES: &str = "first\nsecond\nthird\n";

fn lines_of(rt: &HostRuntime) -> anyhow::Result<String> {
    let mut args = env::args(rt)?;
    let _program = args.next();
    match args.next() {
        Some(path) => Ok(fs::read_to_string(rt, path.as_str())?),
        None => Ok(String::from_str(rt.alloc(), LINES)?),
    }
}

fn start(rt: &HostRuntime, node: &mut Node) -> anyhow::Result<()> {
    println!(rt; "power")?;
    node.power(rt, MachineId(0), ClusterSize(1))?;
    for _ in 0..TICKS_TO_LEAD {
        node.tick(rt)?;
    }
    Ok(())
}

fn run(rt: &HostRuntime) -> anyhow::Result<()> {
    let text = lines_of(rt)?;
    let mut node = Node::new(rt.alloc())?;
    start(rt, &mut node)?;
    for line in text.as_str().lines() {
        println!(rt; "propose {line}")?;
        node.propose(rt, line.as_bytes())?;
    }
    node.how_far(rt)?;
    println!(rt; "power goes")?;
    node.stop();
    start(rt, &mut node)?;
    println!(rt; "propose last")?;
    node.propose(rt, b"last")?;
    node.how_far(rt)
}

fn main(rt: HostRuntime) -> anyhow::Result<()> {
    run(&rt)
}
