//! Sets of numbers.

ghost use Rattle.std.specs.Prelude.{◌≡◌, ℕ};
ghost use Rattle.p10_core.specs.WholePrograms.{is_among};
ghost use Rattle.p10_warn.specs.private.Marked.{is_marked};

use crate::marks::marks_of;
use std::alloc::{AllocError, Global};

/// A list of numbers, with a mark for each number that is among them.
#[derive(Drop)]
pub(crate) struct NumberSet {
    list: Vec<u32>,
    marks: Vec<bool>,
    ghost marked: { (n : ℕ) → is_marked marks.items n ≡ is_among n list.items },
}

impl NumberSet {
    ghost use Rattle.std.specs.Prelude.{IfOk};

    /// These numbers.
    pub(crate) fn of(alloc: Global, list: Vec<u32>) -> Result<NumberSet, AllocError>
        ensures { IfOk result (λ set. set.list.items ≡ list.items) }
    {
        let marks = marks_of(alloc, list.as_slice())?;
        Ok(NumberSet { list, marks })
    }

    /// Whether a number is among them.
    pub(crate) fn has(&self, number: usize) -> bool
        ensures { result ≡ is_among number self.now.list.items }
    {
        match self.marks.get(number) {
            Some(mark) => *mark,
            None => false,
        }
    }
}
