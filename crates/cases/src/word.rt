//! Values as rows write them.
ghost use Rattle.std.specs.Prelude.{◌≡◌, ◌≢◌, ◌++◌, if◌then◌else◌, codes, decimal, Some, None, Ok, Err, MatchResult};
ghost use Rattle.tracker.specs.declared.majority.VoteResult.TheVariants.{Won, Lost, Pending};
ghost use Rattle.tracker.specs.declared.progress.ProgressState.TheVariants.{Probe, Replicate};

use raft_log::Index;
use raft_log::accept::Refused;
use std::fmt;
use std::str::FromStr;
use tracker::{ProgressState, VoteResult};

/// A value that a row gives or expects in words.
#[derive(Clone, Copy)]
pub struct Word<T>(pub T);

/// The words of no value.
#[derive(Clone, Copy)]
pub struct UnknownWord;

impl FromStr for Word<bool> {
    type Err = UnknownWord;

    ghost from_str_gives = { λ text r. MatchResult r (λ word. text ≡ (if word.0 then codes "y" else codes "n")) (λ _. (text ≢ codes "y") × (text ≢ codes "n")) };

    fn from_str(text: &str) -> Result<Word<bool>, UnknownWord> {
        match text {
            "y" => Ok(Word(true)),
            "n" => Ok(Word(false)),
            _ => Err(UnknownWord),
        }
    }
}

impl fmt::Display for Word<bool> {
    ghost output = { λ word. Some (if word.0 then codes "yes" else codes "no") };

    fn fmt<W: fmt::Write>(&self, f: &mut fmt::Formatter<W>) -> fmt::Result {
        f.write_str(if self.0 { "yes" } else { "no" })
    }
}

impl FromStr for Word<ProgressState> {
    type Err = UnknownWord;

    ghost from_str_gives = { λ text r. MatchResult r (λ word. text ≡ elim word.0 [ Probe ↦ codes "probe" | Replicate ↦ codes "replicate" ]) (λ _. (text ≢ codes "probe") × (text ≢ codes "replicate")) };

    fn from_str(text: &str) -> Result<Word<ProgressState>, UnknownWord> {
        match text {
            "probe" => Ok(Word(ProgressState::Probe)),
            "replicate" => Ok(Word(ProgressState::Replicate)),
            _ => Err(UnknownWord),
        }
    }
}

impl fmt::Display for Word<ProgressState> {
    ghost output = { λ word. Some (elim word.0 [ Probe ↦ codes "probe" | Replicate ↦ codes "replicate" ]) };

    fn fmt<W: fmt::Write>(&self, f: &mut fmt::Formatter<W>) -> fmt::Result {
        f.write_str(match self.0 {
            ProgressState::Probe => "probe",
            ProgressState::Replicate => "replicate",
        })
    }
}

impl fmt::Display for Word<VoteResult> {
    ghost output = { λ word. Some (elim word.0 [ Pending ↦ codes "pending" | Lost ↦ codes "lost" | Won ↦ codes "won" ]) };

    fn fmt<W: fmt::Write>(&self, f: &mut fmt::Formatter<W>) -> fmt::Result {
        f.write_str(match self.0 {
            VoteResult::Won => "won",
            VoteResult::Lost => "lost",
            VoteResult::Pending => "pending",
        })
    }
}

impl fmt::Display for Word<Option<Index>> {
    ghost output = { λ word. Some (elim word.0 [ Some index ↦ decimal index.0 | None ↦ codes "none" ]) };

    fn fmt<W: fmt::Write>(&self, f: &mut fmt::Formatter<W>) -> fmt::Result {
        match self.0 {
            Some(Index(index)) => write!(f, "{index}"),
            None => write!(f, "none"),
        }
    }
}

impl fmt::Display for Word<Result<Index, Refused>> {
    ghost output = { λ word. Some (elim word.0 [ Ok last ↦ codes "accepted=yes; last_new=" ++ decimal last.0 | Err refused ↦ codes "accepted=no; hint=" ++ decimal refused.hint.0 ]) };

    fn fmt<W: fmt::Write>(&self, f: &mut fmt::Formatter<W>) -> fmt::Result {
        match self.0 {
            Ok(Index(last)) => write!(f, "accepted=yes; last_new={last}"),
            Err(Refused { hint: Index(hint) }) => write!(f, "accepted=no; hint={hint}"),
        }
    }
}
