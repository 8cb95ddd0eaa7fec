//! Typedef names.

use std::alloc::{AllocError, Global};
use std::marker::Model;

/// The typedef names that are in scope where an expression stands. Contracts see the list of them, in the order in which they
/// were added.
#[derive(Drop)]
pub struct Names<'s> {
    list: Vec<&'s [u8]>,
}

impl<'s> Model for Names<'s> {
    ghost use Rattle.std.specs.Prelude.{List, ℕ, map};

    ghost Value = { List (List ℕ) };

    ghost view = { λ n. map (λ name. name.now) n.list.items };
}

impl<'s> Names<'s> {
    ghost use Rattle.std.specs.Prelude.{◌≡◌, [], ◌∷◌, ◌++◌, map, OnOk, OnErr};

    /// No names.
    pub fn new(alloc: Global) -> Names<'s>
        ensures { result ≡ [] }
    {
        Names {
            list: Vec::new(alloc),
        }
    }

    /// Puts a name after the others. Out of memory, nothing is put.
    pub fn add(&mut self, name: &'s [u8]) -> Result<(), AllocError>
        ensures ok { OnOk result (self.new ≡ self.old ++ name.now ∷ []) }
        ensures err { OnErr result (self.new ≡ self.old) }
    {
        self.list.push(name)?;
        Ok(())
    }

    /// Lends the names.
    pub(crate) fn as_slice(&self) -> &[&'s [u8]]
        ensures { map (λ name. name.now) result.now ≡ self.now }
    {
        self.list.as_slice()
    }
}
