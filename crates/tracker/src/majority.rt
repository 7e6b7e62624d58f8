//! What more than half of the voters have.
ghost use Rattle.std.specs.Prelude.{◌≡◌, ◌≤◌, length};
ghost use Rattle.tracker.specs.Majority.{quorum_has, better, CommittedSays, vote_result};

use raft_log::Index;

/// How a vote stands.
#[derive(Clone, Copy, Debug, PartialEq, Eq)]
pub enum VoteResult {
    /// It depends on those that have not answered.
    Pending,
    Lost,
    Won,
}

// More are refused: the work grows with the square of their number.
const MOST_VOTERS: usize = 1024;

// Whether more than half have got to `index`.
#[tactic(auto, unfolding(crate::specs::Majority::reached))]
fn quorum_has(indices: &[u64], index: u64) -> bool
    requires { length indices.now ≤ 1024 }
    ensures { result ≡ quorum_has indices.now index }
{
    // A sum has no branch in its loop: a count of those that a filter lets through takes twice as long.
    let reached: usize = indices
        .iter()
        .map(|other| usize::from(index <= *other))
        .sum();
    reached > indices.len() / 2
}

// The larger of the best so far and `index`, if more than half have that. They are counted only where it would be larger.
fn better(indices: &[u64], best: u64, index: u64) -> u64
    requires { length indices.now ≤ 1024 }
    ensures { result ≡ better indices.now best index }
{
    if best < index && quorum_has(indices, index) {
        index
    } else {
        best
    }
}

/// The largest index that more than half have; none for none of them, or for more than 1,024.
#[tactic(auto, unfolding(crate::specs::Majority::CommittedSays))]
pub fn committed_index(indices: &[u64]) -> Option<Index>
    ensures { CommittedSays indices.now result }
{
    if indices.is_empty() || indices.len() > MOST_VOTERS {
        return None;
    }
    let best = indices
        .iter()
        .copied()
        .fold(0, |best, index| better(indices, best, index));
    Some(Index(best))
}

/// How the vote of `size` voters stands, of whom so many granted and so many refused.
pub fn vote_result(size: usize, granted: usize, refused: usize) -> VoteResult
    ensures { result ≡ vote_result size granted refused }
{
    let half = size / 2;
    if size == 0 || granted > half {
        VoteResult::Won
    } else if size.saturating_sub(refused) > half {
        VoteResult::Pending
    } else {
        VoteResult::Lost
    }
}

#[cfg(test)]
mod tests {
    use super::*;

    #[test]
    fn committed_rows(rt: HostRuntime) {
        assert_eq!(rt; committed_index(&[2, 2, 2, 4, 5]), Some(Index(2)));
        assert_eq!(rt; committed_index(&[5]), Some(Index(5)));
        assert_eq!(rt; committed_index(&[3, 9]), Some(Index(3)));
        assert_eq!(rt; committed_index(&[]), None);
    }
}
