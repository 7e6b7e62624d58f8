//! Scenarios of upstream's tests, on machines of `together_several` that really run. A line for each: its id and `ok`, or what differs.
#![tactic(auto)]

mod appends;
mod check;
mod commits;
mod elections;
mod net;
mod node;
mod replication;
mod restarts;
mod rounds;
mod script;
mod setup;
mod view;
mod votes;

use check::report;

fn main(rt: HostRuntime) -> anyhow::Result<()> {
    report(
        &rt,
        &[
            &elections::SCRIPTS,
            &votes::SCRIPTS,
            &rounds::SCRIPTS,
            &replication::SCRIPTS,
            &appends::SCRIPTS,
            &commits::SCRIPTS,
            &restarts::SCRIPTS,
        ],
    )
}
