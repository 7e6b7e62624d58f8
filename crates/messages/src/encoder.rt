//! Letters to bytes.
ghost use Rattle.std.specs.Prelude.{◌≡◌, ◌+◌, ◌*◌, ◌≤◌, ◌∷◌, ◌++◌, length, drop};
ghost use Rattle.std.specs.List.{flat_map};
ghost use Rattle.raft_log.specs.Bytes.{eight, laid};
ghost use Rattle.messages.specs.Kind.{kind_byte};
ghost use Rattle.messages.specs.Letter.{letter_bytes};
ghost use Rattle.messages.specs.Message.{letter_from, Sendable};

use super::kind::Kind;
use super::{BLOCK_AT, COUNT_AT, FIRST, Message, SECOND};
use raft_log::Index;
use raft_log::block_writer::write_block;
use raft_log::bytes::put_u64;
use raft_log::layout::Memory;

// A kind and the numbers behind it; says where they end.
fn put_numbers<const N: usize>(out: &mut [u8], kind: Kind, numbers: [u64; N]) -> usize
    requires { (4096 ≤ length out.old) × (N ≤ 4) }
    ensures end { result ≡ 1 + 8 * N }
    ensures put { out.new ≡ laid out.old 0 (kind_byte kind ∷ flat_map eight numbers.entry) }
{
    out[0] = kind as u8;
    for i in 0..N {
        put_u64(out, FIRST + 8 * i, numbers[i]);
    }
    FIRST + 8 * N
}

/// Puts a letter at the front of `out`, and says how long it is. An append carries so many entries of the log in `memory`, from the one behind `prev_index` on.
pub fn encode(message: Message<usize>, memory: &Memory, out: &mut [u8]) -> usize
    requires { (4096 ≤ length out.old) × (Sendable message) }
    ensures long { result ≡ length (letter_bytes (letter_from memory.now message)) }
    ensures short { result ≤ 4096 }
    ensures put { out.new ≡ letter_bytes (letter_from memory.now message) ++ drop result out.old }
{
    match message {
        Message::Append {
            term,
            prev_index,
            prev_term,
            commit,
            entries,
        } => {
            let numbers = [term.0, prev_index.0, prev_term.0, commit.0];
            put_numbers(out, Kind::Append, numbers);
            out[COUNT_AT] = entries as u8;
            write_block(memory, Index(prev_index.0 + 1), entries, out, BLOCK_AT)
        }
        Message::AppendResponse { term, index } => {
            put_numbers(out, Kind::AppendResponse, [term.0, index.0])
        }
        Message::AppendReject {
            term,
            prev_index,
            hint,
        } => put_numbers(out, Kind::AppendReject, [term.0, prev_index.0, hint.0]),
        Message::RequestVote {
            term,
            last_index,
            last_term,
        } => put_numbers(out, Kind::RequestVote, [term.0, last_index.0, last_term.0]),
        Message::RequestVoteResponse { term, granted } => {
            put_numbers(out, Kind::RequestVoteResponse, [term.0]);
            out[SECOND] = u8::from(granted);
            SECOND + 1
        }
        Message::TermNotice { term } => put_numbers(out, Kind::TermNotice, [term.0]),
    }
}
