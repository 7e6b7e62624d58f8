//! One machine: its role, its term, its clock of ticks, and what an event changes in its memory.
#![tactic(auto)]

pub mod apply;
pub mod commit;
pub mod election;
pub mod header;
pub mod outbox;
pub mod power;
pub mod progress;
pub mod proposal;
pub mod receive;
pub mod rows;
pub mod say;
