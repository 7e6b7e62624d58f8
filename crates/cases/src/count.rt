//! How many rows there are, and how many of them came out as expected.
ghost use Rattle.std.specs.Prelude.{◌≡◌, ◌+◌, ◌-◌, ◌^◌, ◌≤◌, min, if◌then◌else◌};

use std::ops::AddAssign;

#[derive(Clone, Copy)]
pub struct Count {
    pub rows: u64,
    pub as_expected: u64,
    ghost within: { as_expected ≤ rows },
}

impl Count {
    pub fn none() -> Count
        ensures { result.rows ≡ 0 }
    {
        Count {
            rows: 0,
            as_expected: 0,
        }
    }

    /// One row.
    pub fn row(as_expected: bool) -> Count
        ensures rows { result.rows ≡ 1 }
        ensures as_expected { result.as_expected ≡ (if as_expected then 1 else 0) }
    {
        Count {
            rows: 1,
            as_expected: u64::from(as_expected),
        }
    }
}

impl AddAssign for Count {
    ghost add_assign_gives = { λ a b r.
        (r.rows ≡ min (a.rows + b.rows) (2 ^ 64 - 1)) × (r.as_expected ≡ min (a.as_expected + b.as_expected) (2 ^ 64 - 1)) };

    fn add_assign(&mut self, other: Count) {
        self.rows = self.rows.saturating_add(other.rows);
        self.as_expected = self.as_expected.saturating_add(other.as_expected);
    }
}
