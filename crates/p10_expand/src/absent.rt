//! The names of files that were found absent.

use indexmap::IndexSet;
use std::alloc::{AllocError, Global};
use std::marker::Model;

/// The names of files that were found absent, in the order in which they came, each once. Contracts see the list of
/// them.
#[derive(Drop)]
pub struct Absent {
    names: IndexSet<String>,
}

impl Model for Absent {
    ghost use Rattle.std.specs.Prelude.{List, ℕ, map, string_bytes};

    ghost Value = { List (List ℕ) };

    ghost view = { λ a. map string_bytes a.names.keys };
}

impl Absent {
    ghost use Rattle.std.specs.Prelude.{◌≡◌, [], bytes_eq, string_bytes, OnOk, OnErr};
    ghost use Rattle.std.specs.List.{list_any};
    ghost use Rattle.indexmap.specs.IndexSet.{insert_key};

    /// No names.
    pub fn new(alloc: Global) -> Absent
        ensures { result ≡ [] }
    {
        Absent {
            names: IndexSet::new(alloc),
        }
    }

    /// Whether the name is there.
    pub fn has(&self, name: &str) -> bool
        ensures { result ≡ list_any (λ other. bytes_eq other name.now) self.now }
    {
        self.names.contains(name)
    }

    /// Adds a name, unless it is there; where memory runs out, all stays as it was.
    pub fn add(&mut self, name: String) -> Result<(), AllocError>
        ensures ok { OnOk result (self.new ≡ insert_key bytes_eq self.old (string_bytes name)) }
        ensures err { OnErr result (self.new ≡ self.old) }
    {
        self.names.insert(name)?;
        Ok(())
    }
}
