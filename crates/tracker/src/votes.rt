//! Who granted its vote and who refused, of up to seven voters.
ghost use Rattle.std.specs.Prelude.{◌≡◌, replicate};
ghost use Rattle.tracker.specs.Votes.{recorded, count_of, tally};

use crate::majority::{VoteResult, vote_result};
use raft_log::MachineId;

pub const MOST_MACHINES: usize = 7;

/// What each voter answered, by its number.
#[derive(Clone, Copy, Debug, PartialEq, Eq)]
pub struct Votes {
    pub answers: [Option<bool>; MOST_MACHINES],
}

impl Votes {
    /// Nobody has answered.
    pub fn new() -> Votes
        ensures { result.answers ≡ replicate 7 None }
    {
        Votes {
            answers: [None; MOST_MACHINES],
        }
    }

    /// The voter's first answer stands.
    pub fn record(&mut self, voter: MachineId, granted: bool)
        ensures { self.new.answers ≡ recorded self.old.answers voter.0 granted }
    {
        let place = voter.0 as usize;
        if place < MOST_MACHINES {
            self.answers[place].get_or_insert(granted);
        }
    }

    // How many of the first `size` voters gave this answer.
    fn count(&self, size: usize, granted: bool) -> usize
        ensures { result ≡ count_of granted self.now.answers size }
    {
        self.answers
            .iter()
            .take(size)
            .filter(|answer| **answer == Some(granted))
            .count()
    }

    /// How the vote of the first `size` voters stands.
    pub fn result(&self, size: usize) -> VoteResult
        ensures { result ≡ tally self.now.answers size }
    {
        vote_result(size, self.count(size, true), self.count(size, false))
    }
}

#[cfg(test)]
mod tests {
    use super::*;

    #[test]
    fn first_answer_stands(rt: HostRuntime) {
        let mut votes = Votes::new();
        votes.record(MachineId(0), true);
        votes.record(MachineId(2), false);
        votes.record(MachineId(2), true);
        assert_eq!(rt; votes.result(3), VoteResult::Pending);
        votes.record(MachineId(1), true);
        assert_eq!(rt; votes.result(3), VoteResult::Won);
    }
}
