//! One machine: its role, its term, its clock of ticks, and what an event changes in its memory.
#![tactic(auto)]

pub mod apply;
pub mod election;
pub mod header;
pub mod power;
pub mod proposal;
