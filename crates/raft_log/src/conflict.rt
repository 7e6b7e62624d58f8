//! Where this log and another part, and which of them is further.
ghost use Rattle.std.specs.Prelude.{◌≡◌, ◌≤◌, length};
ghost use Rattle.raft_log.specs.Layout.{at_most};
ghost use Rattle.raft_log.specs.View.{log_of};
ghost use Rattle.raft_log.specs.Conflict.{has_term, is_up_to_date, conflict, conflict_by_term};

use super::block::Block;
use super::layout::Memory;
use super::{Index, Term, entries};

/// Has the log this index, with this term? Index 0 has term 0.
pub fn match_term(memory: &Memory, index: Index, term: Term) -> bool
    ensures { result ≡ has_term (log_of memory.now) index.0 term.0 }
{
    index <= entries::last_index(memory) && entries::term(memory, index) == term
}

/// Is a log that ends at this index, with this term, at least as far as this log?
pub fn is_up_to_date(memory: &Memory, last_index: Index, last_term: Term) -> bool
    ensures { result ≡ is_up_to_date (log_of memory.now) last_index.0 last_term.0 }
{
    let own = entries::last_term(memory);
    last_term > own || last_term == own && last_index >= entries::last_index(memory)
}

/// The first of a block's entries, for the places behind `prev`, that the log lacks or has with another term.
pub fn find_conflict(memory: &Memory, prev: Index, block: &Block<'_>) -> Option<Index>
    requires { prev.0 ≤ 8193 }
    ensures { result ≡ conflict (log_of memory.now) prev.0 block.now }
{
    for i in 0..block.len() {
        let index = Index(prev.0 + i as u64 + 1);
        if !match_term(memory, index, block.term(i)) {
            return Some(index);
        }
    }
    None
}

/// The largest index of the log, up to `index`, whose term is at most `term`.
pub fn find_conflict_by_term(memory: &Memory, index: Index, term: Term) -> Index
    ensures { result.0 ≡ conflict_by_term (log_of memory.now) term.0 (at_most index.0 (length (log_of memory.now))) }
{
    let last = index.min(entries::last_index(memory));
    for i in (0..last.0).rev() {
        let index = Index(i + 1);
        if entries::term(memory, index) <= term {
            return index;
        }
    }
    Index(0)
}
