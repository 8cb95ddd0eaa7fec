//! Variables of a function whose addresses are taken, asked for by their numbers.

ghost use Rattle.std.specs.Prelude.{◌≡◌, ℕ};
ghost use Rattle.p10_core.specs.WholePrograms.{is_among};
ghost use Rattle.p10_elabs.specs.private.Marked.{is_marked};

use crate::marking::marks_of;
use std::alloc::{AllocError, Global};

/// The numbers of variables, with a mark for each.
#[derive(Drop)]
pub struct TakenSet {
    pub list: Vec<u32>,
    marks: Vec<bool>,
    ghost marked: { (n : ℕ) → is_marked marks.items n ≡ is_among n list.items },
}

impl TakenSet {
    ghost use Rattle.std.specs.Prelude.{IfOk};

    /// These variables.
    pub fn of(alloc: Global, list: Vec<u32>) -> Result<TakenSet, AllocError>
        ensures { IfOk result (λ t. t.list.items ≡ list.items) }
    {
        let marks = marks_of(alloc, &list)?;
        Ok(TakenSet { list, marks })
    }

    /// Whether a variable is among them.
    pub(crate) fn has(&self, number: u32) -> bool
        ensures { result ≡ is_among number self.now.list.items }
    {
        match self.marks.get(number as usize) {
            Some(mark) => *mark,
            None => false,
        }
    }
}
