//! The letters between machines, to bytes and back. Numbers are eight bytes, the low byte first; a letter has at most 4,096 bytes.
#![tactic(auto)]

use raft_log::{Index, Term};

pub mod decoder;
pub mod encoder;
mod kind;
#[cfg(test)]
mod tests;
pub mod theorems;

/// Where the numbers of a letter stand, behind its kind: the term.
const FIRST: usize = 1;
/// Behind the term; a letter with one number ends here.
const SECOND: usize = 9;
/// A letter with two numbers ends here.
const THIRD: usize = 17;
/// A letter with three numbers ends here.
const FOURTH: usize = 25;
/// Where an append says how many entries it has.
const COUNT_AT: usize = 33;
/// Where the block of an append begins; it goes to the end of the letter.
pub const BLOCK_AT: usize = 34;
/// The room that every letter fits.
pub const MAX_LETTER_BYTES: usize = 4096;

/// A letter. `E` is what stands for the entries of an append: the block that was read, or only how many they are, of a letter that is kept without its bytes or is to be made from a log.
#[derive(Clone, Copy)]
pub enum Message<E> {
    /// The entries behind `prev_index`, from the leader of `term`.
    Append {
        term: Term,
        prev_index: Index,
        prev_term: Term,
        commit: Index,
        entries: E,
    },
    /// The log agrees with the leader's up to `index`.
    AppendResponse {
        term: Term,
        index: Index,
    },
    /// There is no entry at `prev_index` with the leader's term; `hint` is where the two may agree.
    AppendReject {
        term: Term,
        prev_index: Index,
        hint: Index,
    },
    /// Asks for a vote, and says how far the candidate's log goes.
    RequestVote {
        term: Term,
        last_index: Index,
        last_term: Term,
    },
    /// Whether the vote is the candidate's.
    RequestVoteResponse {
        term: Term,
        granted: bool,
    },
    /// Only tells a term.
    TermNotice {
        term: Term,
    },
}
