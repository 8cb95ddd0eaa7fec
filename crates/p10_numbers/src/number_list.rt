//! Numbers in the order in which they came, each once.

use indexmap::IndexSet;
use std::alloc::{AllocError, Global};
use std::marker::Model;

/// Numbers in the order in which they came, each once, found by their values. Contracts see the list of them.
#[derive(Drop)]
pub struct NumberList {
    set: IndexSet<i128>,
}

impl Model for NumberList {
    ghost use Rattle.std.specs.Prelude.{List, ℤ};

    ghost Value = { List ℤ };

    ghost view = { λ n. n.set.keys };
}

impl NumberList {
    ghost use Rattle.std.specs.Prelude.{◌≡◌, [], not, IfOk, OnOk, OnErr};
    ghost use Rattle.std.specs.List.{list_any};
    ghost use Rattle.std.specs.Ordering.{int_eq};
    ghost use Rattle.p10_numbers.specs.Numbers.{with_number};

    /// No numbers.
    pub fn new(alloc: Global) -> NumberList
        ensures { result ≡ [] }
    {
        NumberList {
            set: IndexSet::new(alloc),
        }
    }

    /// Puts a number after the others, unless it is there, and tells whether it is new. Out of memory, nothing is put.
    pub fn add(&mut self, number: i128) -> Result<bool, AllocError>
        ensures ok { OnOk result (self.new ≡ with_number self.old number) }
        ensures new { IfOk result (λ new. new ≡ not (list_any (int_eq number) self.old)) }
        ensures err { OnErr result (self.new ≡ self.old) }
    {
        let new = self.set.insert(number)?;
        Ok(new)
    }

    /// Whether the number is there.
    pub fn contains(&self, number: i128) -> bool
        ensures { result ≡ list_any (int_eq number) self.now }
    {
        self.set.contains(&number)
    }
}
