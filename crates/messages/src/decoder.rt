//! Letters from bytes. What is no letter is refused.
ghost use Rattle.std.specs.Prelude.{◌≡◌, ◌≤◌};
ghost use Rattle.messages.specs.Letter.{append_of, append_response_of, append_reject_of, request_vote_of, request_vote_response_of, term_notice_of, letter_of};
ghost use Rattle.messages.specs.Message.{Gives, GivesAt, Readable, NumbersIn, counted};

use super::kind::Kind;
use super::{BLOCK_AT, COUNT_AT, FIRST, FOURTH, Message, SECOND, THIRD};
use raft_log::block::Block;
use raft_log::bytes::get_u64;
use raft_log::{Index, Term};
use std::array;

// The numbers behind the kind, where a letter has just so many and nothing else.
fn numbers<const N: usize>(bytes: &[u8]) -> Option<[u64; N]>
    requires { N ≤ 3 }
    ensures { NumbersIn bytes.now N result }
{
    if bytes.len() != FIRST + 8 * N {
        return None;
    }
    Some(array::from_fn(|i| get_u64(bytes, FIRST + 8 * i)))
}

fn append(bytes: &[u8]) -> Option<Message<Block<'_>>>
    ensures { Gives (append_of bytes.now) result }
{
    if bytes.len() < BLOCK_AT {
        return None;
    }
    let entries = Block::new(&bytes[BLOCK_AT..], usize::from(bytes[COUNT_AT]))?;
    Some(Message::Append {
        term: Term(get_u64(bytes, FIRST)),
        prev_index: Index(get_u64(bytes, SECOND)),
        prev_term: Term(get_u64(bytes, THIRD)),
        commit: Index(get_u64(bytes, FOURTH)),
        entries,
    })
}

fn append_response(bytes: &[u8]) -> Option<Message<Block<'_>>>
    ensures { Gives (append_response_of bytes.now) result }
{
    let [term, index] = numbers::<2>(bytes)?;
    Some(Message::AppendResponse {
        term: Term(term),
        index: Index(index),
    })
}

fn append_reject(bytes: &[u8]) -> Option<Message<Block<'_>>>
    ensures { Gives (append_reject_of bytes.now) result }
{
    let [term, prev_index, hint] = numbers::<3>(bytes)?;
    Some(Message::AppendReject {
        term: Term(term),
        prev_index: Index(prev_index),
        hint: Index(hint),
    })
}

fn request_vote(bytes: &[u8]) -> Option<Message<Block<'_>>>
    ensures { Gives (request_vote_of bytes.now) result }
{
    let [term, last_index, last_term] = numbers::<3>(bytes)?;
    Some(Message::RequestVote {
        term: Term(term),
        last_index: Index(last_index),
        last_term: Term(last_term),
    })
}

fn request_vote_response(bytes: &[u8]) -> Option<Message<Block<'_>>>
    ensures { Gives (request_vote_response_of bytes.now) result }
{
    if bytes.len() != SECOND + 1 || bytes[SECOND] > 1 {
        return None;
    }
    Some(Message::RequestVoteResponse {
        term: Term(get_u64(bytes, FIRST)),
        granted: bytes[SECOND] == 1,
    })
}

fn term_notice(bytes: &[u8]) -> Option<Message<Block<'_>>>
    ensures { Gives (term_notice_of bytes.now) result }
{
    let [term] = numbers::<1>(bytes)?;
    Some(Message::TermNotice { term: Term(term) })
}

/// The letter that these bytes are, with its entries in place; `None` where they are none.
pub fn read(bytes: &[u8]) -> Option<Message<Block<'_>>>
    ensures { Gives (letter_of bytes.now) result }
{
    match Kind::try_from(*bytes.first()?).ok()? {
        Kind::Append => append(bytes),
        Kind::AppendResponse => append_response(bytes),
        Kind::AppendReject => append_reject(bytes),
        Kind::RequestVote => request_vote(bytes),
        Kind::RequestVoteResponse => request_vote_response(bytes),
        Kind::TermNotice => term_notice(bytes),
    }
}

// Without its entries a letter borrows nothing.
fn counted(message: Message<Block<'_>>) -> Message<usize>
    ensures { result ≡ counted message.entry }
{
    match message {
        Message::Append {
            term,
            prev_index,
            prev_term,
            commit,
            entries,
        } => Message::Append {
            term,
            prev_index,
            prev_term,
            commit,
            entries: entries.len(),
        },
        Message::AppendResponse { term, index } => Message::AppendResponse { term, index },
        Message::AppendReject {
            term,
            prev_index,
            hint,
        } => Message::AppendReject {
            term,
            prev_index,
            hint,
        },
        Message::RequestVote {
            term,
            last_index,
            last_term,
        } => Message::RequestVote {
            term,
            last_index,
            last_term,
        },
        Message::RequestVoteResponse { term, granted } => {
            Message::RequestVoteResponse { term, granted }
        }
        Message::TermNotice { term } => Message::TermNotice { term },
    }
}

/// The letter that these bytes are, with how many entries it has: it outlives the bytes, and is copied freely. `None` where they are none.
pub fn decode(bytes: &[u8]) -> Option<Message<usize>>
    ensures is { GivesAt (letter_of bytes.now) bytes.now result }
    ensures block { Readable bytes.now result }
{
    Some(counted(read(bytes)?))
}
