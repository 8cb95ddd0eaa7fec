//! Names in the order in which they came, each once.

use indexmap::IndexSet;
use std::alloc::{AllocError, Global};
use std::marker::Model;

/// Names in the order in which they came, each once, found by their spelling. Contracts see the list of them.
#[derive(Drop)]
pub struct NameList<'s> {
    set: IndexSet<&'s [u8]>,
}

impl<'s> Model for NameList<'s> {
    ghost use Rattle.std.specs.Prelude.{List, ℕ, map};

    ghost Value = { List (List ℕ) };

    ghost view = { λ n. map (λ name. name.now) n.set.keys };
}

impl<'s> NameList<'s> {
    ghost use Rattle.std.specs.Prelude.{◌≡◌, [], bytes_eq, length, Some, IfOk, OnOk, OnErr};
    ghost use Rattle.std.specs.List.{list_any};
    ghost use Rattle.p10_base.specs.Names.{place_in, with_name};

    /// No names.
    pub fn new(alloc: Global) -> NameList<'s>
        ensures { result ≡ [] }
    {
        NameList {
            set: IndexSet::new(alloc),
        }
    }

    /// Puts a name after the others, unless it is there, and gives its place, counted from 0. Out of memory,
    /// nothing is put.
    pub fn add(&mut self, name: &'s [u8]) -> Result<usize, AllocError>
        ensures ok { OnOk result (self.new ≡ with_name self.old name.now) }
        ensures place { IfOk result (λ place. place_in self.new name.now ≡ Some place) }
        ensures err { OnErr result (self.new ≡ self.old) }
    {
        let (place, _) = self.set.insert_full(name)?;
        Ok(place)
    }

    /// How many names there are.
    pub fn count(&self) -> usize
        ensures { result ≡ length self.now }
    {
        self.set.len()
    }

    /// Whether the name is there.
    pub fn contains(&self, name: &[u8]) -> bool
        ensures { result ≡ list_any (bytes_eq name.now) self.now }
    {
        self.set.contains(name)
    }

    /// The place of the name, counted from 0; `None` where it isn't there.
    pub fn place(&self, name: &[u8]) -> Option<usize>
        ensures { result ≡ place_in self.now name.now }
    {
        self.set.get_index_of(name)
    }
}
