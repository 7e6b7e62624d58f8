//! How far another machine is known to have the log, and what it is sent next.
ghost use Rattle.std.specs.Prelude.{◌≡◌, ◌≤◌, not};
ghost use Rattle.tracker.specs.declared.progress.ProgressState.TheVariants.{Probe, Replicate};
ghost use Rattle.tracker.specs.Progress.{Ahead, fresh, turned, acknowledged, news, sent, stale, retry_in, rejected_at, matched_of, next_of, index, after};

use raft_log::Index;

/// Probe: one append at a time until the logs are known to agree. Replicate: what is sent counts as on its way.
#[derive(Clone, Copy, Debug, PartialEq, Eq)]
pub enum ProgressState {
    Probe,
    Replicate,
}

#[derive(Clone, Copy, Debug, PartialEq, Eq)]
pub struct Progress {
    pub matched: Index,
    pub next_index: Index,
    pub state: ProgressState,
}

/// The index after this one, as far as there is one.
pub fn index_after(at: Index) -> Index
    ensures { result ≡ index (after at.0) }
{
    Index(at.0.saturating_add(1))
}

impl Progress {
    pub fn new(next_index: Index) -> Progress
        ensures is { result ≡ fresh next_index }
        ensures ahead { Ahead result }
    {
        Progress {
            matched: Index(0),
            next_index: next_index.max(Index(1)),
            state: ProgressState::Probe,
        }
    }

    pub fn reset(&mut self, next_index: Index)
        ensures is { self.new ≡ fresh next_index }
        ensures ahead { Ahead self.new }
    {
        *self = Progress::new(next_index);
    }

    // Back to what the machine is known to have.
    fn turn(&mut self, state: ProgressState)
        ensures { self.new ≡ turned state self.old }
    {
        self.next_index = index_after(self.matched);
        self.state = state;
    }

    pub fn become_probe(&mut self)
        ensures is { self.new ≡ turned Probe self.old }
        ensures ahead { Ahead self.old → Ahead self.new }
        ensures same { matched_of self.new ≡ matched_of self.old }
    {
        self.turn(ProgressState::Probe);
    }

    pub fn become_replicate(&mut self)
        ensures is { self.new ≡ turned Replicate self.old }
        ensures ahead { Ahead self.old → Ahead self.new }
        ensures same { matched_of self.new ≡ matched_of self.old }
    {
        self.turn(ProgressState::Replicate);
    }

    /// The machine acknowledged `acked`: whether it was known to have less.
    pub fn maybe_update(&mut self, acked: Index) -> bool
        ensures is { result ≡ news acked self.old }
        ensures then { self.new ≡ acknowledged acked self.old }
        ensures ahead { Ahead self.old → Ahead self.new }
        ensures rises { matched_of self.old ≤ matched_of self.new }
    {
        if acked == Index(u64::MAX) {
            return false;
        }
        let advanced = self.matched < acked;
        self.matched = self.matched.max(acked);
        self.next_index = self.next_index.max(index_after(acked));
        advanced
    }

    /// What was sent, up to `last`, counts as on its way.
    pub fn optimistic_update(&mut self, last: Index)
        ensures is { self.new ≡ sent last self.old }
        ensures ahead { Ahead self.old → Ahead self.new }
        ensures same { matched_of self.new ≡ matched_of self.old }
    {
        self.next_index = index_after(self.matched.max(last));
    }

    // Whether a rejection at `rejected` says nothing new.
    fn is_stale(&self, rejected: Index) -> bool
        ensures { result ≡ stale rejected self.now }
    {
        match self.state {
            ProgressState::Probe => self.next_index.0.checked_sub(1) != Some(rejected.0),
            ProgressState::Replicate => rejected <= self.matched,
        }
    }

    // Where to go on after a rejection.
    fn retry_at(&self, rejected: Index, match_hint: Index) -> Index
        ensures { result ≡ index (retry_in self.now.state rejected match_hint self.now) }
    {
        let least = index_after(self.matched);
        match self.state {
            ProgressState::Probe => rejected.min(index_after(match_hint)).max(least),
            ProgressState::Replicate => least,
        }
    }

    /// An append at `rejected` was refused: whether that is news, and then the next index falls.
    pub fn maybe_decr_to(&mut self, rejected: Index, match_hint: Index) -> bool
        ensures is { result ≡ not (stale rejected self.old) }
        ensures then { self.new ≡ rejected_at rejected match_hint self.old }
        ensures ahead { Ahead self.old → Ahead self.new }
        ensures same { matched_of self.new ≡ matched_of self.old }
        ensures falls { Ahead self.old → next_of self.new ≤ next_of self.old }
    {
        if self.is_stale(rejected) {
            return false;
        }
        self.next_index = self.retry_at(rejected, match_hint);
        true
    }
}

#[cfg(test)]
mod tests {
    use super::*;

    #[test]
    fn falls_back_and_goes_on(rt: HostRuntime) {
        let mut progress = Progress::new(Index(10));
        assert!(rt; progress.maybe_decr_to(Index(9), Index(2)));
        assert_eq!(rt; progress.next_index, Index(3));
        assert!(rt; !progress.maybe_decr_to(Index(9), Index(2)));
        assert!(rt; progress.maybe_update(Index(5)));
        progress.become_replicate();
        progress.optimistic_update(Index(8));
        assert_eq!(rt; progress.matched, Index(5));
        assert_eq!(rt; progress.next_index, Index(9));
    }
}
