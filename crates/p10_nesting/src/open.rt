//! The open levels in numbers.

ghost use Rattle.std.specs.Prelude.{◌≡◌, ◌↔◌, IsTrue, IfOk};
ghost use Rattle.p10_nesting.specs.Nesting.{is_inside as inside, outermost, Levels};
ghost use Rattle.p10_nesting.specs.private.Counts.{no_counts};
ghost use Rattle.p10_nesting.specs.private.Tallies.{Adds, Closes, IsCounted, Meets, Settles, Tallies};

use crate::role::Role;
use crate::tally::Tally;
use std::alloc::{AllocError, Global};
use std::marker::Model;

/// The rows of the open levels: that of the innermost, and those around it, the outermost first.
#[derive(Drop)]
pub struct Open {
    inner: Tally,
    outer: Vec<Tally>,
}

impl Model for Open {
    ghost Value = { Tallies };

    ghost view = { λ o. record { inner = o.inner; outer = o.outer.items } };
}

impl Open {
    /// The one level that is open before the first word.
    pub fn new(alloc: Global) -> Open
        ensures { IsCounted outermost result }
    {
        Open {
            inner: Tally::new(),
            outer: Vec::new(alloc),
        }
    }

    /// Whether a level is open within the outermost one.
    pub fn is_inside(&self) -> bool
        ensures { (levels : Levels) → IsCounted levels self.now → result ≡ inside levels }
    {
        !self.outer.is_empty()
    }

    /// Takes a word of this role that stands directly after a string or not. It answers whether too many words
    /// stand in the rows then; if so, or where memory runs out, the rows are of no use.
    pub fn meet(&mut self, role: Role, after_string: bool) -> Result<bool, AllocError>
        ensures { IfOk result (λ over. Meets role after_string self.old self.new over) }
    {
        if role.closes() {
            self.close();
            Ok(false)
        } else if role.is_string() && after_string {
            Ok(false)
        } else {
            self.add(role)
        }
    }

    /// Adds a word of this role to the row of the innermost level, and opens a level if it is an opening bracket.
    /// It answers whether that is one word too many.
    fn add(&mut self, role: Role) -> Result<bool, AllocError>
        ensures { IfOk result (λ over. Adds role self.old self.new over) }
    {
        if self.inner.is_full() {
            return Ok(true);
        }
        let row = self.inner.added(role);
        if role.opens() {
            self.outer.push(row)?;
            self.inner = row.inner();
        } else {
            self.inner = row;
        }
        Ok(false)
    }

    /// Closes the innermost level, but never the outermost.
    fn close(&mut self)
        ensures { Closes self.old self.new }
    {
        if let Some(row) = self.outer.pop() {
            self.inner = row;
        }
    }

    /// Reduces or empties the row of the innermost level after a word of this role was met. `inside` says whether a
    /// level was open within the outermost before it, and `goes_on` whether the words after it go on with the statement.
    pub fn settle(&mut self, role: Role, inside: bool, goes_on: bool)
        ensures { Settles role inside goes_on self.old self.new }
    {
        self.inner = self.inner.settled(role, inside, goes_on);
    }
}
