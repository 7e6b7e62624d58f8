//! Facts about the definitions that the contracts use: each is what the contract of a function here says. Rows go by their ids in the tables of cases.
ghost use Rattle.std.specs.Prelude.{◌≡◌, true, false, [], ◌∷◌, Some, None};
ghost use Rattle.tracker.specs.Cases.{CommittedIs, CommittedRises, Once, CountedOnce, WonByMore, DecidedStays};
ghost use Rattle.tracker.specs.Progress.{progress, index, turned, acknowledged, news, stale, rejected_at};
ghost use Rattle.tracker.specs.Votes.{tally};
ghost use Rattle.tracker.specs.declared.majority.VoteResult.TheVariants.{Pending, Lost, Won};
ghost use Rattle.tracker.specs.declared.progress.ProgressState.TheVariants.{Probe, Replicate};

pub fn committed_rows()
    ensures five { CommittedIs (2 ∷ 2 ∷ 2 ∷ 4 ∷ 5 ∷ []) (Some (index 2)) }
    ensures one { CommittedIs (5 ∷ []) (Some (index 5)) }
    ensures two { CommittedIs (3 ∷ 9 ∷ []) (Some (index 3)) }
    ensures none { CommittedIs [] None }
    ensures m009 { CommittedIs (12 ∷ 5 ∷ 0 ∷ []) (Some (index 5)) }
    ensures m010 { CommittedIs (12 ∷ 5 ∷ 6 ∷ []) (Some (index 6)) }
    ensures m015 { CommittedIs (101 ∷ 104 ∷ 103 ∷ 103 ∷ 0 ∷ []) (Some (index 103)) }
    ensures m016 { CommittedIs (101 ∷ 102 ∷ 103 ∷ 103 ∷ 0 ∷ []) (Some (index 102)) }
{}

pub fn vote_rows()
    ensures m018 { tally (None ∷ []) 1 ≡ Pending }
    ensures m022 { tally (Some false ∷ None ∷ []) 2 ≡ Lost }
    ensures m025 { tally (Some true ∷ Some true ∷ []) 2 ≡ Won }
    ensures m030 { tally (Some true ∷ Some false ∷ None ∷ []) 3 ≡ Pending }
    ensures m036 { tally (Some true ∷ Some true ∷ Some false ∷ Some true ∷ None ∷ Some false ∷ Some true ∷ []) 7 ≡ Won }
    ensures m038 { tally (Some true ∷ Some true ∷ Some false ∷ Some true ∷ Some false ∷ Some false ∷ Some false ∷ []) 7 ≡ Lost }
{}

pub fn progress_rows()
    ensures p012 { turned Replicate (progress 1 5 Probe) ≡ progress 1 2 Replicate }
    ensures p015 { (news (index 3) (progress 3 5 Probe) ≡ false) × (acknowledged (index 3) (progress 3 5 Probe) ≡ progress 3 5 Probe) }
    ensures p017 { (news (index 5) (progress 3 5 Probe) ≡ true) × (acknowledged (index 5) (progress 3 5 Probe) ≡ progress 5 6 Probe) }
    ensures p018 { stale (index 5) (progress 5 10 Replicate) ≡ true }
    ensures p020 { rejected_at (index 9) (index 9) (progress 5 10 Replicate) ≡ progress 5 6 Replicate }
    ensures p021 { stale (index 0) (progress 0 0 Probe) ≡ true }
    ensures p025 { rejected_at (index 0) (index 0) (progress 0 1 Probe) ≡ progress 0 1 Probe }
    ensures p026 { rejected_at (index 9) (index 2) (progress 0 10 Probe) ≡ progress 0 3 Probe }
{}

/// The committed index does not fall.
pub fn committed_laws()
    ensures rises { CommittedRises }
{}

/// Each voter counts once, and a decided vote stays decided.
pub fn vote_laws()
    ensures once { Once }
    ensures counted { CountedOnce }
    ensures more { WonByMore }
    ensures stays { DecidedStays }
{}
