//! Letters there and back, and damaged ones.
ghost use Rattle.std.specs.Prelude.{◌≤◌, length};

use super::decoder::{decode, read};
use super::encoder::encode;
use super::*;
use raft_log::entries::append_value;
use raft_log::layout::{MEMORY_WORDS, Memory};
use std::test::Fail;

// Fifteen entries of terms 1 to 15, with values as long as they can be.
fn fill(memory: &mut Memory) {
    for k in 0..15u8 {
        let _ = append_value(memory, Term(u64::from(k) + 1), &[k; 256]);
    }
}

fn is_letter(bytes: &[u8], long: usize) -> bool
    requires { long ≤ length bytes.now }
{
    decode(&bytes[..long]).is_some()
}

#[test]
fn a_full_append_comes_back(rt: HostRuntime) -> Result<(), Fail> {
    let mut memory = [0u64; MEMORY_WORDS];
    let mut out = [0u8; MAX_LETTER_BYTES];
    fill(&mut memory);
    let sent = Message::Append {
        term: Term(300),
        prev_index: Index(0),
        prev_term: Term(0),
        commit: Index(3),
        entries: 15,
    };
    let long = encode(sent, &memory, &mut out);
    assert_eq!(rt; long, 4024);
    let Some(
        Message::Append {
            term,
            commit,
            entries,
            ..
        },
    ) = read(&out[..long])
    else {
        return Err(Fail::new("no append"));
    };
    assert_eq!(rt; term, Term(300));
    assert_eq!(rt; commit, Index(3));
    assert_eq!(rt; entries.len(), 15);
    assert_eq!(rt; out[BLOCK_AT + 10 * 14], 15);
    assert_eq!(rt; out[BLOCK_AT + 10 * 15 + 256 * 14], 14);
    Ok(())
}

#[test]
fn a_damaged_letter_is_refused(rt: HostRuntime) {
    let mut memory = [0u64; MEMORY_WORDS];
    let mut out = [0u8; MAX_LETTER_BYTES];
    fill(&mut memory);
    let sent = Message::Append {
        term: Term(1),
        prev_index: Index(13),
        prev_term: Term(13),
        commit: Index(0),
        entries: 2,
    };
    let long = encode(sent, &memory, &mut out);
    assert_eq!(rt; long, 566);
    assert!(rt; is_letter(&out, 566));
    assert!(rt; !is_letter(&out, 565));
    assert!(rt; !is_letter(&out, 567));
    assert!(rt; !is_letter(&out, 0));
    out[COUNT_AT] = 3;
    assert!(rt; !is_letter(&out, 566));
    out[0] = 7;
    assert!(rt; !is_letter(&out, 566));
}

fn carries(message: Message<usize>, count: usize) -> bool {
    matches!(message, Message::Append { entries, .. } if entries == count)
}

#[test]
fn a_letter_outlives_its_bytes(rt: HostRuntime) -> Result<(), Fail> {
    let mut memory = [0u64; MEMORY_WORDS];
    let mut out = [0u8; MAX_LETTER_BYTES];
    fill(&mut memory);
    let sent = Message::Append {
        term: Term(1),
        prev_index: Index(13),
        prev_term: Term(13),
        commit: Index(0),
        entries: 2,
    };
    let long = encode(sent, &memory, &mut out);
    let Some(letter) = decode(&out[..long]) else {
        return Err(Fail::new("no letter"));
    };
    out.fill(0);
    assert!(rt; carries(letter, 2));
    assert!(rt; carries(letter, 2));
    Ok(())
}

#[test]
fn a_letter_in_place_has_a_clone(rt: HostRuntime) -> Result<(), Fail> {
    let memory = [0u64; MEMORY_WORDS];
    let mut out = [0u8; MAX_LETTER_BYTES];
    let sent = Message::TermNotice { term: Term(7) };
    let long = encode(sent, &memory, &mut out);
    let Some(letter) = read(&out[..long]) else {
        return Err(Fail::new("no letter"));
    };
    let same = letter.clone()?;
    assert!(rt; matches!(letter, Message::TermNotice { term: Term(7) }));
    assert!(rt; matches!(same, Message::TermNotice { term: Term(7) }));
    Ok(())
}
