//! What came out of a scenario, beside what upstream's test expects.
use crate::node::Node;
use crate::script::{Script, play};
use crate::view::{Progress, State};
use raft_log::MachineId;
use std::alloc::Global;
use std::fmt::Display;

#[derive(Drop)]
pub struct Check {
    heap: Global,
    // What differs; empty if all is as expected.
    differences: String,
}

impl Check {
    pub fn new(heap: Global) -> Check {
        Check {
            heap,
            differences: String::new(heap),
        }
    }

    pub fn differences(&self) -> &str {
        self.differences.as_str()
    }

    fn same<T: Display + Drop>(&mut self, what: &str, is: T, expected: &str) -> anyhow::Result<()> {
        let is = is.to_string(self.heap)?;
        if is.as_str() != expected {
            write!(
                self.differences,
                "\n  {what}: {is}\n    expected: {expected}"
            )?;
        }
        Ok(())
    }

    /// Role, term, commit and log of a machine.
    pub fn state(&mut self, node: &Node, expected: &str) -> anyhow::Result<()> {
        self.same("state", State(node.memory()?), expected)
    }

    /// What a machine did since it was last asked.
    pub fn acts(&mut self, node: &mut Node, expected: &str) -> anyhow::Result<()> {
        self.same("acts", node.acts(), expected)?;
        node.forget_acts();
        Ok(())
    }

    /// All that a machine applied.
    pub fn applied(&mut self, node: &Node, expected: &str) -> anyhow::Result<()> {
        self.same("applied", node.applied(), expected)
    }

    /// How far another machine is, as a leader knows.
    pub fn progress(
        &mut self,
        node: &Node,
        other: MachineId,
        expected: &str,
    ) -> anyhow::Result<()> {
        self.same("progress", Progress(node.memory()?, other), expected)
    }
}

// Plays a scenario and prints its line: is it as expected?
fn is_as_expected(rt: &(impl Print + AllocGlobal), script: &Script) -> anyhow::Result<bool> {
    let id = script.id;
    let check = play(rt.alloc(), script)?;
    let differences = check.differences();
    if differences.is_empty() {
        println!(rt; "{id} ok")?;
    } else {
        println!(rt; "{id} differs{differences}")?;
    }
    Ok(differences.is_empty())
}

/// Plays scenarios, one after the other, prints a line for each, and how many are as expected.
pub fn report(rt: &(impl Print + AllocGlobal), scripts: &[&[Script]]) -> anyhow::Result<()> {
    let scripts = scripts.iter().copied().flatten();
    let outcomes = scripts
        .map(|script| is_as_expected(rt, script))
        .try_collect::<Vec<bool>>(rt.alloc())?;
    let as_expected = outcomes.iter().filter(|outcome| **outcome).count();
    println!(rt; "{} scenarios, {as_expected} as expected", outcomes.len())?;
    Ok(())
}
