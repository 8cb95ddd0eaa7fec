//! The row of an open level in numbers.

ghost use Rattle.std.specs.Prelude.{◌≡◌, ◌+◌, ◌<◌, ◌≤◌, ◌↔◌, IsTrue};
ghost use Rattle.p10_base.specs.declared.report.TheConstants.Limit.{MOST_NESTING};
ghost use Rattle.p10_nesting.specs.private.Counts.{Counts, added_counts, emptied_counts, finished_counts, inner_counts, no_counts, reduced_counts, settled_counts};

use crate::role::Role;
use p10_base::Limit;
use std::marker::Model;

/// What matters of the row of an open level.
#[derive(Clone, Copy)]
pub struct Tally {
    /// How many words stand in the rows around it.
    around: u64,
    /// How many words it has.
    words: u64,
    /// How many of them stay where it is reduced.
    kept: u64,
    /// Whether it has a `?`.
    asks: bool,
}

impl Model for Tally {
    ghost Value = { Counts };

    ghost view = { λ t. record { around = t.around; words = t.words; kept = t.kept; asks = t.asks } };

    ghost inverse = { λ c. record { around = c.around; words = c.words; kept = c.kept; asks = c.asks } };

    ghost invariant = { λ t. (t.around + t.words ≤ MOST_NESTING) × (t.kept ≤ t.words) };
}

impl Tally {
    /// An empty row of the outermost level.
    pub fn new() -> Tally
        ensures { result ≡ no_counts }
    {
        Tally {
            around: 0,
            words: 0,
            kept: 0,
            asks: false,
        }
    }

    /// Whether one more word in the row is too many.
    pub fn is_full(self) -> bool
        ensures { IsTrue result ↔ (MOST_NESTING ≤ self.around + self.words) }
    {
        self.around + self.words >= Limit::MOST_NESTING
    }

    /// The row with one more word.
    pub fn added(self, role: Role) -> Tally
        requires { self.around + self.words < MOST_NESTING }
        ensures { result ≡ added_counts role self }
    {
        let kept = if matches!(role, Role::Keeps) {
            self.kept + 1
        } else {
            self.kept
        };
        let asks = matches!(role, Role::Asks) || self.asks;
        Tally {
            around: self.around,
            words: self.words + 1,
            kept,
            asks,
        }
    }

    /// An empty row of a level that is opened in the level of this row.
    pub fn inner(self) -> Tally
        ensures { result ≡ inner_counts self }
    {
        Tally {
            around: self.around + self.words,
            words: 0,
            kept: 0,
            asks: false,
        }
    }

    /// The row after a word of this role was met. `inside` says whether a level was open within the outermost
    /// before it, and `goes_on` whether the words after it go on with the statement.
    pub fn settled(self, role: Role, inside: bool, goes_on: bool) -> Tally
        ensures { result ≡ settled_counts role inside goes_on self }
    {
        match role {
            Role::Ends => self.finished(goes_on),
            Role::Finishes => { if inside { self.finished(goes_on) } else { self } }
            Role::Separates => { if self.asks { self } else { self.reduced() } }
            _ => self,
        }
    }

    /// The row where a statement has ended, which goes on or not.
    fn finished(self, goes_on: bool) -> Tally
        ensures { result ≡ finished_counts goes_on self }
    {
        if goes_on {
            self.reduced()
        } else {
            self.emptied()
        }
    }

    /// The row reduced.
    fn reduced(self) -> Tally
        ensures { result ≡ reduced_counts self }
    {
        Tally {
            around: self.around,
            words: self.kept,
            kept: self.kept,
            asks: false,
        }
    }

    /// The row emptied.
    fn emptied(self) -> Tally
        ensures { result ≡ emptied_counts self }
    {
        Tally {
            around: self.around,
            words: 0,
            kept: 0,
            asks: false,
        }
    }
}
