//! The macros that words come from.
//!
//! A macro's number is the place of its name among those that words have come from so far, and a word comes from a set of
//! such numbers.

ghost use Rattle.std.specs.Prelude.{length};
ghost use Rattle.p10_macros.specs.private.Sets.{AreBelow};

use crate::sets::{Part, contains, unite, with_number};
use p10_base::NameList;
use std::alloc::{AllocError, Global};

/// The macros that words come from, and the sets of them. A set is a number among these, and 0 is the empty set.
#[derive(Drop)]
pub struct Origins<'s> {
    names: NameList<'s>,
    sets: Vec<Part>,
    ghost below: { AreBelow (length names) sets.items },
}

impl<'s> Origins<'s> {
    ghost use Rattle.std.specs.Prelude.{◌≡◌, ◌≤◌, [], IfOk};
    ghost use Rattle.p10_macros.specs.private.Origins.{count_of, has_macro, Extends, HasBoth, HasOne};

    /// No macros and no sets but the empty one.
    pub fn new(alloc: Global) -> Origins<'s>
        ensures { result.sets.items ≡ [] }
    {
        Origins {
            names: NameList::new(alloc),
            sets: Vec::new(alloc),
        }
    }

    /// Whether the macro with this name is in a set.
    pub fn has(&self, set: usize, name: &[u8]) -> bool
        ensures { result ≡ has_macro self.now set name.now }
    {
        // Most words come from no macro, and then no name is looked for.
        if set == 0 {
            return false;
        }
        match self.names.place(name) {
            None => false,
            Some(number) => contains(self.sets.as_slice(), set, number),
        }
    }

    /// The set that has the macro with this name, and those of another set.
    pub fn with_macro(&mut self, set: usize, name: &'s [u8]) -> Result<usize, AllocError>
        ensures grown { Extends self.old self.new }
        ensures one { IfOk result (HasOne self.old name.entry.now set self.new) }
    {
        let number = self.names.add(name)?;
        with_number(&mut self.sets, set, number)
    }

    /// The set that has the macros of two others.
    pub fn unite(&mut self, these: usize, those: usize) -> Result<usize, AllocError>
        ensures grown { Extends self.old self.new }
        ensures both { IfOk result (λ set. these ≤ count_of self.old → those ≤ count_of self.old → HasBoth self.old these those self.new set) }
    {
        unite(&mut self.sets, these, those)
    }
}
