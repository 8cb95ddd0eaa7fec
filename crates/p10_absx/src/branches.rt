//! Environments as walks over statements use them: branches, scopes, and the hull of two.

ghost use Rattle.std.specs.Prelude.{◌≡◌, ℕ, [], slice_get, Some, None, IfOk, OnOk};
ghost use Rattle.std.specs.Option.{option_map, option_copied};
ghost use Rattle.p10_core.specs.Views.{plain_value};
ghost use Rattle.p10_cert.specs.Claims.{claims_of};
ghost use Rattle.p10_absx.specs.declared.notes.Entry.{Entry as ListedEntry};
ghost use Rattle.p10_absx.specs.Abstract.{abstract_of};
ghost use Rattle.p10_absx.specs.Environments.{out_of_scope, hull_environment};
ghost use Rattle.p10_absx.specs.Assessing.{abstract_value, assume_of};
ghost use Rattle.p10_absx.specs.Branches.{unbranched, Enters};
ghost use Rattle.p10_absx.specs.Trails.{known_in_entries, back, with_values};
ghost use Rattle.p10_absx.specs.private.Found.{state_of};

use crate::abs::Abs;
use crate::changes::Change;
use crate::env::Env;
use crate::notes::Entry;
use crate::states::{Sides, hull_entry};
use p10_cert::Cert;
use p10_core::Value;
use std::alloc::{AllocError, Global};

impl Env {
    /// The value of an integer, as [`Env::eval`] gives it, without a copy of the environment. Out of memory nothing is said of
    /// what is known then.
    pub fn value(
        &mut self,
        alloc: Global,
        c: Option<&Cert>,
        v: &Value,
    ) -> Result<Option<Abs>, AllocError>
        ensures same { OnOk result (self.new ≡ self.old) }
        ensures value { IfOk result (λ a. option_map abstract_of a ≡ abstract_value (option_map claims_of (option_copied c.entry)) self.old.values (plain_value v.now)) }
    {
        let found = self.assess(alloc, c, v)?;
        Ok(found.value())
    }

    /// Opens a branch in which a scalar is true or false, and answers whether a state is left: where none is, no branch is
    /// opened. Out of memory nothing is said of what is known then.
    pub fn enter_where(
        &mut self,
        alloc: Global,
        c: Option<&Cert>,
        v: &Value,
        truth: bool,
    ) -> Result<bool, AllocError>
        ensures { IfOk result (λ left. Enters left (assume_of (option_map claims_of (option_copied c.entry)) (plain_value v.now) truth self.old.values) self.old self.new) }
    {
        let found = self.assess(alloc, c, v)?;
        let sides = self.sides(alloc, found)?;
        let Sides {
            truth: held,
            contrary,
        } = sides;
        self.enter_after(if truth { held } else { contrary })
    }

    /// Opens a branch after changes, if a state is left.
    fn enter_after(&mut self, changes: Option<Vec<Change>>) -> Result<bool, AllocError>
        ensures { IfOk result (λ left. Enters left (state_of self.old.values changes) self.old self.new) }
    {
        match changes {
            Some(changes) => {
                self.enter(&changes)?;
                Ok(true)
            }
            None => Ok(false),
        }
    }

    /// Takes the branch back that was opened last: everything is known again that was known before.
    pub fn leave(&mut self)
        ensures { self.new ≡ back self.old }
    {
        self.take_back();
    }

    /// Another environment, in which the scalar `v` is true or false, as `truth` says; `None` where no state is left.
    ///
    /// # Errors
    ///
    /// Out of memory.
    pub fn assumed(
        &self,
        alloc: Global,
        c: Option<&Cert>,
        v: &Value,
        truth: bool,
    ) -> Result<Option<Env>, AllocError>
        ensures { IfOk result (λ other. other ≡ option_map unbranched (assume_of (option_map claims_of (option_copied c.entry)) (plain_value v.now) truth self.now.values)) }
    {
        let mut env = self.copy(alloc)?;
        let found = env.assess(alloc, c, v)?;
        let sides = env.sides(alloc, found)?;
        let Sides {
            truth: held,
            contrary,
        } = sides;
        env.after_changes(if truth { held } else { contrary })
    }

    /// The environment after changes, if a state is left.
    fn after_changes(self, changes: Option<Vec<Change>>) -> Result<Option<Env>, AllocError>
        ensures { IfOk result (λ other. other ≡ option_map (with_values self) (state_of self.values changes)) }
    {
        let mut env = self;
        match changes {
            Some(changes) => {
                env.apply(&changes);
                Ok(Some(env))
            }
            None => Ok(None),
        }
    }

    /// Takes a variable out of scope. It takes no memory.
    pub fn forget(&mut self, v: u32)
        ensures { self.new ≡ with_values self.old (out_of_scope self.old.values v) }
    {
        self.put(v as usize, None);
    }
}

/// The entries of the hull of two environments.
pub fn hull_entries(
    alloc: Global,
    some: &[Entry],
    others: &[Entry],
) -> Result<Vec<Entry>, AllocError>
    ensures known { IfOk result (λ es. known_in_entries es.items ≡ hull_environment (known_in_entries some.now) (known_in_entries others.now)) }
    ensures fresh { IfOk result (λ es. (n : ℕ) (e : ListedEntry) → slice_get es.items n ≡ Some e → e.noted ≡ 0) }
{
    let mut entries = Vec::with_capacity(alloc, some.len())?;
    for n in 0..some.len().min(others.len()) {
        let first = some[n];
        let second = others[n];
        entries.push(Entry {
            known: hull_entry(first.known, second.known),
            noted: 0,
        })?;
    }
    Ok(entries)
}
