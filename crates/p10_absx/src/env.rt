//! Environments.

ghost use Rattle.std.specs.Prelude.{◌≡◌, ℕ, [], ◌∷◌, map, reverse, slice_get, slice_set, Some, IfOk, OnOk, vec_capacity};
ghost use Rattle.std.specs.Option.{option_map};
ghost use Rattle.p10_absx.specs.Abstract.{abstract_of};
ghost use Rattle.p10_absx.specs.Environments.{known, learned, hull_environment};
ghost use Rattle.p10_absx.specs.private.Kept.{IsTrail, Changed, taken_back};

use crate::abs::Abs;
use crate::branches::hull_entries;
use crate::notes::{Entry, Note};
use std::alloc::{AllocError, Global};
use std::marker::Model;

/// What is known of the integer frame variables in scope, by their numbers.
///
/// A branch can be opened and taken back: then everything is known again that was known before.
#[derive(Drop)]
pub struct Env {
    entries: Vec<Entry>,
    /// What open branches changed, the newest last.
    notes: Vec<Note>,
    /// The innermost open branch: the number of notes up to its beginning, or 0.
    branch: usize,
}

impl Model for Env {
    ghost use Rattle.std.specs.Prelude.{reverse, vec_capacity};
    ghost use Rattle.p10_absx.specs.Trails.{Branching, branching_of};
    ghost use Rattle.p10_absx.specs.private.Kept.{IsTrail};

    ghost Value = { Branching };

    ghost view = { λ env. branching_of env.entries.items env.notes.items };

    ghost invariant = { λ env. IsTrail (vec_capacity env.notes) env.branch env.entries.items (reverse env.notes.items) };
}

impl Env {
    ghost use Rattle.p10_absx.specs.Trails.{known_in_entries, back, branched, with_values};
    ghost use Rattle.p10_absx.specs.Branches.{unbranched};

    /// An environment of these entries, without a branch.
    pub(crate) fn of_entries(alloc: Global, entries: Vec<Entry>) -> Env
        requires { (n : ℕ) (e : Entry) → slice_get entries.items n ≡ Some e → e.noted ≡ 0 }
        ensures { result ≡ record { values = known_in_entries entries.items; outer = [] } }
    {
        Env {
            entries,
            notes: Vec::new(alloc),
            branch: 0,
        }
    }

    /// What is known of the variable with a number: `None` where it is no integer frame variable in scope.
    pub fn get(&self, v: u32) -> Option<Abs>
        ensures { option_map abstract_of result ≡ known self.now.values v }
    {
        match self.entries.get(v as usize) {
            Some(entry) => entry.known,
            None => None,
        }
    }

    /// Changes what is known of a variable in scope. It takes no memory.
    pub fn set(&mut self, v: u32, a: Abs)
        ensures { self.new ≡ with_values self.old (learned self.old.values v (abstract_of a)) }
    {
        self.put(v as usize, Some(a));
    }

    /// Puts something else into the entry of a variable. It takes no memory.
    pub(crate) fn put(&mut self, n: usize, known: Option<Abs>)
        ensures { self.new ≡ with_values self.old (slice_set self.old.values n (option_map abstract_of known)) }
    {
        change(&mut self.entries, &mut self.notes, self.branch, n, known);
    }

    /// Opens a branch: room is made for a note of each variable.
    pub(crate) fn open(&mut self) -> Result<(), AllocError>
        ensures ok { OnOk result (self.new ≡ branched self.old) }
    {
        self.notes.reserve(self.entries.len().saturating_add(1))?;
        let opened = self.notes.push(Note::Opened(self.branch));
        prove!(opened.is_ok());
        self.branch = self.notes.len();
        Ok(())
    }

    /// Takes the innermost branch back: everything is known again that was known where it was opened.
    pub(crate) fn take_back(&mut self)
        ensures { self.new ≡ back self.old }
    {
        if self.branch > 0 {
            self.branch = undo(&mut self.entries, &mut self.notes);
        }
    }

    /// An equal environment, without a branch.
    ///
    /// # Errors
    ///
    /// Out of memory.
    pub fn copy(&self, alloc: Global) -> Result<Env, AllocError>
        ensures { IfOk result (λ env. env ≡ record { values = self.now.values; outer = [] }) }
    {
        let mut entries = Vec::with_capacity(alloc, self.entries.len())?;
        for entry in &self.entries {
            entries.push(Entry {
                known: entry.known,
                noted: 0,
            })?;
        }
        Ok(Env::of_entries(alloc, entries))
    }

    /// The hull of two environments: a variable is in scope where it is in both. It has no branch.
    ///
    /// # Errors
    ///
    /// Out of memory.
    pub fn hull_with(&self, alloc: Global, other: &Env) -> Result<Env, AllocError>
        ensures { IfOk result (λ env. env ≡ unbranched (hull_environment self.now.values other.now.values)) }
    {
        let entries = hull_entries(alloc, self.entries.as_slice(), other.entries.as_slice())?;
        Ok(Env::of_entries(alloc, entries))
    }
}

/// Changes an entry, with a note where the branch has none of it.
fn change(
    entries: &mut Vec<Entry>,
    notes: &mut Vec<Note>,
    branch: usize,
    n: usize,
    known: Option<Abs>,
)
    requires { IsTrail (vec_capacity notes.old) branch entries.old.items (reverse notes.old.items) }
    ensures { Changed (vec_capacity notes.new) branch entries.old.items notes.old.items n known entries.new.items notes.new.items }
{
    if n >= entries.len() {
        return;
    }
    let before = entries[n];
    if before.noted == branch {
        entries[n] = Entry {
            known,
            noted: branch,
        };
        return;
    }
    let noted = notes.push(Note::Was(n, before));
    prove!(noted.is_ok());
    entries[n] = Entry {
        known,
        noted: branch,
    };
}

/// Writes what was noted in the innermost branch again, and gives the branch round it.
fn undo(entries: &mut Vec<Entry>, notes: &mut Vec<Note>) -> usize
    ensures taken { taken_back entries.old.items (reverse notes.old.items) ≡ record { entries = entries.new.items; notes = reverse notes.new.items; branch = result } }
    ensures room { vec_capacity notes.new ≡ vec_capacity notes.old }
{
    while let Some(note) = notes.pop() {
        match note {
            Note::Opened(branch) => return branch,
            Note::Was(n, entry) => put_back(entries, n, entry),
        }
    }
    0
}

/// Writes an entry again.
fn put_back(entries: &mut Vec<Entry>, n: usize, entry: Entry)
    ensures { entries.new.items ≡ slice_set entries.old.items n entry }
{
    if n < entries.len() {
        entries[n] = entry;
    }
}
