//! The tables: each is a file of rows, and says what the library answers to a row.
use crate::count::Count;
use crate::row::{Row, RowError, is_remark};
use crate::{log, majority, progress};
use anyhow::anyhow;
use std::alloc::Global;
use std::{fmt, fs};

#[derive(Clone, Copy)]
pub enum Table {
    Majority,
    Progress,
    Log,
    Unstable,
}

impl fmt::Display for Table {
    fn fmt<W: fmt::Write>(&self, f: &mut fmt::Formatter<W>) -> fmt::Result {
        f.write_str(match self {
            Table::Majority => "majority",
            Table::Progress => "progress",
            Table::Log => "log",
            Table::Unstable => "unstable",
        })
    }
}

impl Table {
    pub const ALL: [Table; 4] = [
        Table::Majority,
        Table::Progress,
        Table::Log,
        Table::Unstable,
    ];

    // What the library answers, in the words that a row expects it in.
    fn answer(self, heap: Global, row: &Row<'_>) -> Result<String, RowError> {
        match self {
            Table::Majority => majority::answer(heap, row),
            Table::Progress => progress::answer(heap, row),
            Table::Log | Table::Unstable => log::answer(heap, row),
        }
    }

    // What is to be said of a row that does not come out as expected.
    fn difference(self, heap: Global, line: &str) -> Result<Option<String>, RowError> {
        let row = Row::try_from(line)?;
        let came = self.answer(heap, &row)?;
        if came.as_str() == row.expected {
            return Ok(None);
        }
        Ok(Some(format!(in heap; "{}: {came}, expected {}", row.id, row.expected)?))
    }

    /// Goes through all rows, and prints those that do not come out as expected, and how many do.
    pub fn go_through(self, rt: &HostRuntime) -> anyhow::Result<Count> {
        let file = format!(in rt.alloc(); "{self}.txt")?;
        let text = fs::read_to_string(rt, &file).map_err(|why| anyhow!("{file}: {why}"))?;
        rt.println(self)?;
        let mut count = Count::none();
        for (place, line) in text.as_str().lines().enumerate() {
            if is_remark(line) {
                continue;
            }
            let difference = self
                .difference(rt.alloc(), line)
                .map_err(|why| anyhow!("{file}:{}: {why}", place.saturating_add(1)))?;
            count += Count::row(difference.is_none());
            if let Some(what) = difference {
                println!(rt; "  {what}")?;
            }
        }
        say(rt, count)?;
        Ok(count)
    }
}

pub fn say(rt: &HostRuntime, count: Count) -> anyhow::Result<()> {
    println!(rt; "  {} rows, {} as expected", count.rows, count.as_expected)?;
    Ok(())
}
