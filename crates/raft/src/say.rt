//! Letters that are due: at most one to each machine, by its kind; the letter itself is made when it flies.
ghost use Rattle.std.specs.Prelude.{◌≡◌};
ghost use Rattle.raft.specs.Say.{due_word, ReadsAs, said_to_others, said_to, answer_said};

use super::header::{Machine, Role};
use super::rows::{ANSWER, Row, set_only, set_others};
use raft_log::layout::Memory;
use raft_log::{Index, MachineId};

/// The kinds of letters, by the word that stands for each.
#[derive(Clone, Copy, Debug, PartialEq, Eq)]
pub enum Due {
    Append = 1,
    RequestVote = 2,
    TellTerm = 3,
    Grant = 4,
    Deny = 5,
    Accept = 6,
    Reject = 7,
}

/// What an append is answered.
#[derive(Clone, Copy)]
pub(crate) enum Answer {
    /// The log agrees with the leader's up to an index.
    Accepted(Index),
    /// There is no entry at `prev` with the leader's term; `hint` is where the two may agree.
    Rejected { prev: Index, hint: Index },
}

/// A word that stands for no letter.
#[derive(Clone, Copy, Debug, PartialEq, Eq)]
pub struct NothingDue;

impl From<Due> for u64 {
    ghost from_gives = { λ due word. word ≡ due_word due };

    fn from(due: Due) -> u64 {
        due as u64
    }
}

impl TryFrom<u64> for Due {
    type Error = NothingDue;

    ghost try_from_gives = { ReadsAs };

    fn try_from(word: u64) -> Result<Due, NothingDue> {
        match word {
            1 => Ok(Due::Append),
            2 => Ok(Due::RequestVote),
            3 => Ok(Due::TellTerm),
            4 => Ok(Due::Grant),
            5 => Ok(Due::Deny),
            6 => Ok(Due::Accept),
            7 => Ok(Due::Reject),
            _ => Err(NothingDue),
        }
    }
}

/// A letter to each other machine.
#[tactic(auto, unfolding(crate::specs::Say::said_to_others))]
pub(crate) fn say_to_others(memory: &mut Memory, machine: Machine<Role>, due: Due)
    ensures { memory.new ≡ said_to_others memory.old machine due }
{
    set_others(memory, Row::Due, machine, u64::from(due));
}

/// A letter to one machine alone.
#[tactic(auto, unfolding(crate::specs::Say::said_to))]
pub(crate) fn say_to(memory: &mut Memory, to: MachineId, due: Due)
    ensures { memory.new ≡ said_to memory.old to.0 due }
{
    set_only(memory, Row::Due, to, u64::from(due));
}

/// An answer to one machine, with the numbers that it carries.
#[tactic(auto, unfolding(crate::specs::Say::answered))]
pub(crate) fn say_answer(memory: &mut Memory, to: MachineId, answer: Answer)
    ensures { memory.new ≡ answer_said memory.old to.0 answer }
{
    let (due, first, second) = match answer {
        Answer::Accepted(index) => (Due::Accept, index, Index(0)),
        Answer::Rejected { prev, hint } => (Due::Reject, prev, hint),
    };
    say_to(memory, to, due);
    memory[ANSWER] = first.0;
    memory[ANSWER + 1] = second.0;
}
