//! Goes through tables of cases: a row says what the library is called with and what is expected, and every row that comes out otherwise is printed.
#![tactic(auto)]

mod count;
mod entries;
mod log;
mod majority;
mod offer;
mod progress;
mod row;
mod table;
mod word;

use count::Count;
use table::{Table, say};

fn main(rt: HostRuntime) -> anyhow::Result<()> {
    let mut all = Count::none();
    for table in Table::ALL {
        all += table.go_through(&rt)?;
    }
    rt.println("all tables")?;
    say(&rt, all)
}
