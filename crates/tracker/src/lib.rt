//! What a leader or a candidate knows of the other machines: how far each of them is, what more than half have, and how they voted.
#![tactic(auto)]

pub mod majority;
pub mod progress;
pub mod theorems;
pub mod votes;

pub use majority::{VoteResult, committed_index, vote_result};
pub use progress::{Progress, ProgressState};
pub use votes::Votes;
