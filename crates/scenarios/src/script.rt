//! A scenario as a list of steps: what is done to machines, and what is expected of them. Machines are called by upstream's numbers, from 1.
ghost use Rattle.messages.specs.Message.{Sendable};

use crate::check::Check;
use crate::net::Net;
use crate::setup::Offer;
use messages::Message;
use raft::header::{Role, Ticks};
use raft_log::{Index, Term};
use std::alloc::Global;

#[derive(Clone, Copy)]
pub enum Step {
    /// No letters between two machines; none to or from one; none at all; no appends; all again.
    Cut(u64, u64),
    Isolate(u64),
    Alone,
    LoseAppends,
    Heal,
    /// A log by hand: the terms of its entries, each with a value, and how many are decided.
    Log(u64, &'static [u64], u64),
    /// A term and a role by hand: waiting, following, standing, leading.
    Waits(u64, u64),
    Follows(u64, u64),
    Stands(u64, u64),
    Leads(u64, u64),
    /// How far another machine is, by hand: match and next.
    Progress(u64, u64, u64, u64),
    /// Events at a machine; all letters that follow come before the next step.
    Tick(u64, u64),
    Propose(u64, &'static str),
    Restart(u64),
    /// Ticks till it stands in a term of its own; without letters, and with them.
    Stand(u64),
    Campaign(u64),
    /// Letters made by hand, from one machine to another, of a term: asks with a last index and its term; vote or refusal; acknowledged or rejected (with a hint) an index.
    Ask(u64, u64, u64, (u64, u64)),
    Vote(u64, u64, u64),
    Deny(u64, u64, u64),
    Ack(u64, u64, u64, u64),
    Reject(u64, u64, u64, u64),
    Here(u64, u64, u64),
    /// An append: behind which index of which term, what is decided, and the terms of its entries.
    Append(u64, u64, u64, (u64, u64), u64, &'static [u64]),
    Bytes(u64, u64, &'static str),
    /// What a machine did so far is not looked at.
    Forget(u64),
    /// Expected: role, term, commit and log; what it did since last asked; all that it applied; how far it holds another to be.
    Is(u64, &'static str),
    Did(u64, &'static str),
    Applied(u64, &'static str),
    Knows(u64, u64, &'static str),
}

#[derive(Clone, Copy)]
pub struct Script {
    pub id: &'static str,
    pub size: u64,
    pub steps: &'static [Step],
}

fn perform(net: &mut Net, check: &mut Check, step: Step) -> anyhow::Result<()> {
    match step {
        Step::Cut(a, b) => net.cut(a, b),
        Step::Isolate(node) => net.isolate(node),
        Step::Alone => net.isolate_all(),
        Step::LoseAppends => {
            net.appends_drop = true;
            Ok(())
        }
        Step::Heal => {
            net.heal();
            Ok(())
        }
        Step::Log(node, terms, commit) => {
            net.node(node)?.set_log(terms, commit);
            Ok(())
        }
        Step::Waits(node, term) => {
            net.node(node)?.set_role(term, follower(false));
            Ok(())
        }
        Step::Follows(node, term) => {
            net.node(node)?.set_role(term, follower(true));
            Ok(())
        }
        Step::Stands(node, term) => {
            net.node(node)?.set_role(term, Role::Candidate(Ticks(0)));
            Ok(())
        }
        Step::Leads(node, term) => {
            net.node(node)?.set_role(term, Role::Leader);
            Ok(())
        }
        Step::Progress(node, other, matched, next) => {
            let other = net.id(other);
            net.node(node)?.set_progress(other, matched, next);
            Ok(())
        }
        Step::Tick(node, times) => net.ticks(node, times),
        Step::Propose(node, value) => net.propose(node, value.as_bytes()),
        Step::Restart(node) => net.node(node)?.restart(),
        Step::Stand(node) => net.stand(node),
        Step::Campaign(node) => net.campaign(node),
        Step::Ask(from, to, term, last) => net.post(from, to, ask(term, last)),
        Step::Vote(from, to, term) => net.post(from, to, vote(term, true)),
        Step::Deny(from, to, term) => net.post(from, to, vote(term, false)),
        Step::Ack(from, to, term, index) => net.post(from, to, ack(term, index)),
        Step::Reject(from, to, term, index) => net.post(from, to, reject(term, index)),
        Step::Here(from, to, term) => net.post(from, to, here(term)),
        Step::Append(from, to, term, (prev, prev_term), commit, entries) => net.post_append(
            from,
            to,
            Offer {
                term,
                prev,
                prev_term,
                commit,
                entries,
            },
        ),
        Step::Bytes(from, to, text) => net.post_bytes(from, to, text.as_bytes()),
        Step::Forget(node) => {
            net.node(node)?.forget_acts();
            Ok(())
        }
        Step::Is(node, expected) => check.state(net.node(node)?, expected),
        Step::Did(node, expected) => check.acts(net.node(node)?, expected),
        Step::Applied(node, expected) => check.applied(net.node(node)?, expected),
        Step::Knows(node, other, expected) => {
            let other = net.id(other);
            check.progress(net.node(node)?, other, expected)
        }
    }
}

fn follower(heard: bool) -> Role {
    Role::Follower(Ticks(0), heard)
}

fn ask(term: u64, last: (u64, u64)) -> Message<usize>
    ensures { Sendable result }
{
    let (last_index, last_term) = last;
    Message::RequestVote {
        term: Term(term),
        last_index: Index(last_index),
        last_term: Term(last_term),
    }
}

fn vote(term: u64, granted: bool) -> Message<usize>
    ensures { Sendable result }
{
    Message::RequestVoteResponse {
        term: Term(term),
        granted,
    }
}

fn ack(term: u64, index: u64) -> Message<usize>
    ensures { Sendable result }
{
    Message::AppendResponse {
        term: Term(term),
        index: Index(index),
    }
}

// The hint is the index itself, as in upstream's rows.
fn reject(term: u64, index: u64) -> Message<usize>
    ensures { Sendable result }
{
    Message::AppendReject {
        term: Term(term),
        prev_index: Index(index),
        hint: Index(index),
    }
}

fn here(term: u64) -> Message<usize>
    ensures { Sendable result }
{
    Message::TermNotice { term: Term(term) }
}

/// Goes through the steps of a scenario.
pub fn play(heap: Global, script: &Script) -> anyhow::Result<Check> {
    let mut net = Net::new(heap, script.size)?;
    let mut check = Check::new(heap);
    for step in script.steps {
        perform(&mut net, &mut check, *step)?;
    }
    Ok(check)
}
