//! A row of a table: `id | operation | given | expected`. What is given or expected is `name=value` pairs split by `; `, and `-` is an empty list.
ghost use Rattle.std.specs.Prelude.{◌≡◌, ◌==◌, MatchResult, Ok, length};
ghost use Rattle.std.specs.List.{before_first, after_first, position_or_len};

use raft_log::Index;
use std::alloc::AllocError;
use std::fmt;
use std::str::FromStr;

#[derive(Clone, Copy)]
pub struct Row<'a> {
    pub id: &'a str,
    pub operation: &'a str,
    pub given: &'a str,
    pub expected: &'a str,
}

/// Why a row cannot be read.
#[derive(Clone, Copy, Debug, PartialEq, Eq)]
pub enum RowError {
    Columns,
    Operation,
    // No such name is given.
    Missing(&'static str),
    // What is given by this name cannot be read.
    Unreadable(&'static str),
    // It is beyond what the library has room for.
    TooLarge(&'static str),
    Memory,
}

impl fmt::Display for RowError {
    fn fmt<W: fmt::Write>(&self, f: &mut fmt::Formatter<W>) -> fmt::Result {
        match self {
            RowError::Columns => write!(f, "not four columns"),
            RowError::Operation => write!(f, "an operation that this table does not have"),
            RowError::Missing(name) => write!(f, "no {name} is given"),
            RowError::Unreadable(name) => write!(f, "{name} cannot be read"),
            RowError::TooLarge(name) => write!(f, "{name} is too large"),
            RowError::Memory => write!(f, "no memory"),
        }
    }
}

impl From<AllocError> for RowError {
    fn from(_: AllocError) -> RowError {
        RowError::Memory
    }
}

impl<'a> TryFrom<&'a str> for Row<'a> {
    type Error = RowError;

    fn try_from(line: &'a str) -> Result<Row<'a>, RowError> {
        let mut columns = line.split(" | ");
        let row = Row {
            id: columns.next().ok_or(RowError::Columns)?,
            operation: columns.next().ok_or(RowError::Columns)?,
            given: columns.next().ok_or(RowError::Columns)?,
            expected: columns.next().ok_or(RowError::Columns)?,
        };
        match columns.next() {
            None => Ok(row),
            Some(_) => Err(RowError::Columns),
        }
    }
}

/// A line that is no row.
pub fn is_remark(line: &str) -> bool {
    line.is_empty() || line.starts_with('#')
}

pub fn parse<T: FromStr>(text: &str, name: &'static str) -> Result<T, RowError>
where
    T::Err: Drop,
    ensures { MatchResult result (λ value. T.from_str_gives text.now (Ok value)) (λ why. why ≡ RowError.Unreadable name.entry) }
{
    text.parse().map_err(|_| RowError::Unreadable(name))
}

/// The two sides of `a:b` or the like.
pub fn split_pair<'a>(text: &'a str, name: &'static str) -> Result<(&'a str, &'a str), RowError>
    ensures { MatchResult result (λ sides. (sides.0.now ≡ before_first (λ b. b == 58) text.now) × (sides.1.now ≡ after_first (λ b. b == 58) text.now)) (λ why. (why ≡ RowError.Unreadable name.entry) × (position_or_len (λ b. b == 58) text.now ≡ length text.now)) }
{
    text.split_once(':').ok_or(RowError::Unreadable(name))
}

pub fn parse_pair(text: &str, name: &'static str) -> Result<(u64, u64), RowError> {
    let (left, right) = split_pair(text, name)?;
    Ok((parse(left, name)?, parse(right, name)?))
}

impl<'a> Row<'a> {
    /// What is given by a name.
    pub fn text(&self, name: &'static str) -> Result<&'a str, RowError> {
        self.given
            .split("; ")
            .find_map(|pair| pair.strip_prefix(name)?.strip_prefix('='))
            .ok_or(RowError::Missing(name))
    }

    /// The same, without the `-` of an empty list.
    pub fn list(&self, name: &'static str) -> Result<&'a str, RowError> {
        self.text(name)
            .map(|text| if text == "-" { "" } else { text })
    }

    pub fn get<T: FromStr>(&self, name: &'static str) -> Result<T, RowError>
    where
        T::Err: Drop,
    {
        parse(self.text(name)?, name)
    }

    pub fn index(&self, name: &'static str) -> Result<Index, RowError> {
        self.get(name).map(Index)
    }
}
