//! What a memory and a letter say, as text.
use messages::Message;
use messages::decoder::read;
use raft::header::{ClusterSize, Role, load};
use raft::rows::{DUE, MATCHED, NEXT};
use raft_log::entries::{committed, last_index, slot, term};
use raft_log::layout::{MAX_VALUE_BYTES, Memory};
use raft_log::values::read_value;
use raft_log::{Index, MachineId};
use std::fmt;

const MAX_BYTES: usize = MAX_VALUE_BYTES as usize;

/// Upstream's number of a machine: they count from 1, and the last is the one that is 0 here.
pub fn name(id: MachineId, size: ClusterSize) -> u64 {
    if id.0 == 0 { size.0 } else { id.0 }
}

/// The bytes of a letter: its kind, term and numbers, and how many entries it carries.
#[derive(Clone, Copy)]
pub struct LetterText<'a>(pub &'a [u8]);

impl fmt::Display for LetterText<'_> {
    fn fmt<W: fmt::Write>(&self, f: &mut fmt::Formatter<W>) -> fmt::Result {
        let Some(message) = read(self.0) else {
            return f.write_str("no letter");
        };
        match message {
            Message::Append {
                term,
                prev_index,
                prev_term,
                commit,
                entries,
            } => write!(
                f,
                "append t{} {}:{} c{} +{}",
                term.0,
                prev_index.0,
                prev_term.0,
                commit.0,
                entries.len()
            ),
            Message::AppendResponse { term, index } => write!(f, "accept t{} {}", term.0, index.0),
            Message::AppendReject {
                term,
                prev_index,
                hint,
            } => write!(f, "reject t{} {} hint {}", term.0, prev_index.0, hint.0),
            Message::RequestVote {
                term,
                last_index,
                last_term,
            } => write!(f, "ask t{} {}:{}", term.0, last_index.0, last_term.0),
            Message::RequestVoteResponse { term, granted } => {
                let word = if granted { "vote" } else { "deny" };
                write!(f, "{word} t{}", term.0)
            }
            Message::TermNotice { term } => write!(f, "here t{}", term.0),
        }
    }
}

/// How far a machine is, as its leader knows.
#[derive(Clone, Copy)]
pub struct Progress<'a>(pub &'a Memory, pub MachineId);

impl fmt::Display for Progress<'_> {
    fn fmt<W: fmt::Write>(&self, f: &mut fmt::Formatter<W>) -> fmt::Result {
        let Progress(memory, other) = *self;
        let place = other.0 as usize;
        let matched = memory[MATCHED..NEXT].get(place).copied().unwrap_or(0);
        let next = memory[NEXT..DUE].get(place).copied().unwrap_or(0);
        write!(f, "match {matched} next {next}")
    }
}

// One that waits has not heard from the leader of its term; one that follows has.
fn role_text(role: Role) -> &'static str {
    match role {
        Role::Follower(_, true) => "follows",
        Role::Follower(_, false) => "waits",
        Role::Candidate(_) => "stands",
        Role::Leader => "leads",
    }
}

// The value of an entry, put into `room`; an empty one has none.
fn value<'a>(memory: &Memory, index: Index, room: &'a mut [u8; MAX_BYTES]) -> Option<&'a [u8]> {
    let long = read_value(memory, slot(memory, index)?, &mut *room);
    room.get(..long)
}

// An entry: its value, or `-` for an empty one, and its term.
#[derive(Clone, Copy)]
struct EntryText<'a>(&'a Memory, Index);

impl fmt::Display for EntryText<'_> {
    fn fmt<W: fmt::Write>(&self, f: &mut fmt::Formatter<W>) -> fmt::Result {
        let EntryText(memory, index) = *self;
        let mut room = [0; MAX_BYTES];
        let bytes = value(memory, index, &mut room).unwrap_or(b"-");
        let text = str::from_utf8(bytes).unwrap_or("?");
        write!(f, "{text}:{}", term(memory, index).0)
    }
}

// The entries of a log, with blanks between them.
#[derive(Clone, Copy)]
struct LogText<'a>(&'a Memory);

impl fmt::Display for LogText<'_> {
    fn fmt<W: fmt::Write>(&self, f: &mut fmt::Formatter<W>) -> fmt::Result {
        for i in 1..=last_index(self.0).0 {
            if i > 1 {
                f.write_str(" ")?;
            }
            write!(f, "{}", EntryText(self.0, Index(i)))?;
        }
        Ok(())
    }
}

/// Role, term, commit and log.
#[derive(Clone, Copy)]
pub struct State<'a>(pub &'a Memory);

impl fmt::Display for State<'_> {
    fn fmt<W: fmt::Write>(&self, f: &mut fmt::Formatter<W>) -> fmt::Result {
        let machine = load(self.0);
        write!(
            f,
            "{} t{} c{} [{}]",
            role_text(machine.role),
            machine.term.0,
            committed(self.0).0,
            LogText(self.0)
        )
    }
}
