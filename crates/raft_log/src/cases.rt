//! Upstream's cases about logs, as theorems about the definitions that the contracts name. The functions do nothing: their contracts are the theorems.
ghost use Rattle.raft_log.specs.LogCases.{ConflictCases, UpToDateCases, AppendCases, HintCases};

/// Where a log and what is offered to it part.
pub fn conflict_cases()
    ensures { ConflictCases }
{}

/// Which of two logs is further.
pub fn up_to_date_cases()
    ensures { UpToDateCases }
{}

/// What an append makes of a log.
pub fn append_cases()
    ensures { AppendCases }
{}

/// Where a refused append is to be tried again.
pub fn hint_cases()
    ensures { HintCases }
{}
