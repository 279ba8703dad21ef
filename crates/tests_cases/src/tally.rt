//! The number of cases that were played, and of those that differ.

/// Numbers of cases. They saturate at the greatest number.
#[derive(Clone, Copy)]
pub struct Tally {
    pub played: u32,
    pub differing: u32,
}

impl Tally {
    /// No cases.
    pub fn new() -> Self {
        Tally {
            played: 0,
            differing: 0,
        }
    }

    /// One more case.
    pub fn with(self, differs: bool) -> Self {
        Tally {
            played: self.played.saturating_add(1),
            differing: self.differing.saturating_add(u32::from(differs)),
        }
    }

    /// This many more that differ, which are no cases.
    pub fn with_strays(self, strays: u32) -> Self {
        Tally {
            played: self.played,
            differing: self.differing.saturating_add(strays),
        }
    }

    /// The cases of both.
    pub fn and(self, other: Tally) -> Self {
        Tally {
            played: self.played.saturating_add(other.played),
            differing: self.differing.saturating_add(other.differing),
        }
    }
}
