//! How many cases there are, and how many of them differ.

ghost use Rattle.std.specs.Prelude.{◌≡◌, ◌+◌, ◌-◌, ◌^◌, min};
ghost use Rattle.cases.specs.Tally.{CountsCases, no_cases};

use super::case::{Case, holds};

/// How many cases there were, and how many of them differ.
#[derive(Clone, Copy, Default)]
pub struct Tally {
    pub cases: u64,
    pub differ: u64,
}

impl Tally {
    /// With those of another; a count that would pass 64 bits stays at their end.
    pub fn with(self, other: Tally) -> Tally
        ensures cases { result.cases ≡ min (self.cases + other.cases) (2 ^ 64 - 1) }
        ensures differ { result.differ ≡ min (self.differ + other.differ) (2 ^ 64 - 1) }
    {
        Tally {
            cases: self.cases.saturating_add(other.cases),
            differ: self.differ.saturating_add(other.differ),
        }
    }
}

/// How many cases there are, and how many of them differ.
pub fn tally_of(cases: &[Case<'_>]) -> Tally
    ensures { CountsCases no_cases cases.now result }
{
    let mut tally = Tally::default();
    for case in cases {
        let right = holds(case.job.as_slice(), case.replies.as_bytes());
        tally = tally.with(Tally {
            cases: 1,
            differ: u64::from(!right),
        });
    }
    tally
}
