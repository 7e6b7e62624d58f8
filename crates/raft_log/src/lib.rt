//! The log of one machine, in words that are lent to it: entries with terms, and the values that some of them hold.
#![tactic(auto)]

pub mod accept;
pub mod block;
pub mod block_writer;
pub mod bytes;
pub mod cases;
pub mod conflict;
pub mod entries;
pub mod layout;
pub mod theorems;
pub mod values;

/// A term: a time in which at most one machine leads.
#[derive(Clone, Copy, Debug, PartialEq, Eq, PartialOrd, Ord)]
pub struct Term(pub u64);

/// A place in the log, from 1; 0 is before the first entry.
#[derive(Clone, Copy, Debug, PartialEq, Eq, PartialOrd, Ord)]
pub struct Index(pub u64);

/// The number of a decision, from 1: how many values stand up to it. Empty entries do not count.
#[derive(Clone, Copy, Debug, PartialEq, Eq, PartialOrd, Ord)]
pub struct Number(pub u64);

/// A machine, from 0.
#[derive(Clone, Copy, Debug, PartialEq, Eq, PartialOrd, Ord)]
pub struct MachineId(pub u64);
