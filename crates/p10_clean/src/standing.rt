//! How far a walk over statements has come.

ghost use Rattle.std.specs.Prelude.{◌≡◌, Some, OnOk, IfOk};
ghost use Rattle.p10_core.specs.Views.{plain_statement};
ghost use Rattle.p10_absx.specs.Environments.{hull_reached};
ghost use Rattle.p10_pass.specs.Leaving.{values_in};
ghost use Rattle.p10_clean.specs.Settings.{case_settings, ways_of};
ghost use Rattle.p10_clean.specs.Statements.{case_entry};
ghost use Rattle.p10_clean.specs.private.Code.{settings_of};

use crate::settings::Settings;
use crate::ways::{Ways, case_settings, ways_of};
use p10_absx::Env;
use p10_core::Stmt;
use std::alloc::{AllocError, Global};

/// How far a walk over statements has come: what is known there, `None` where no state comes, and what is set there.
#[derive(Drop)]
pub(crate) struct Standing {
    pub known: Option<Env>,
    pub set: Settings,
}

impl Standing {
    /// Where these things are known and set.
    pub fn at(alloc: Global, set: &Settings, env: &Env) -> Result<Standing, AllocError>
        ensures known { IfOk result (λ at. values_in at.known ≡ Some env.now.values) }
        ensures set { IfOk result (λ at. settings_of at.set ≡ settings_of set.now) }
    {
        let set = set.copy(alloc)?;
        let known = env.copy(alloc)?;
        Ok(Standing {
            known: Some(known),
            set,
        })
    }

    /// Goes past a statement by what it sets.
    pub fn go_past(&mut self, alloc: Global, s: &Stmt) -> Result<(), AllocError>
        ensures known { OnOk result (values_in self.new.known ≡ values_in self.old.known) }
        ensures set { OnOk result (settings_of self.new.set ≡ (ways_of (plain_statement s.now) (settings_of self.old.set)).normal) }
    {
        let set = normal_after(alloc, s, self.set.taken())?;
        self.set = set;
        Ok(())
    }

    /// Enters an item of a `switch`'s body, where the `switch` is entered with these things set and known.
    pub fn enter_case(
        &mut self,
        alloc: Global,
        labelled: bool,
        set: &Settings,
        env: &Env,
    ) -> Result<(), AllocError>
        ensures known { OnOk result (values_in self.new.known ≡ case_entry labelled env.now.values (values_in self.old.known)) }
        ensures set { OnOk result (settings_of self.new.set ≡ case_settings labelled (settings_of set.now) (settings_of self.old.set)) }
    {
        let there = case_settings(alloc, labelled, set, self.set.taken())?;
        let here = case_entry(alloc, labelled, env, self.known.take())?;
        self.set = there;
        self.known = here;
        Ok(())
    }
}

/// What is set after a statement, where the next one comes.
fn normal_after(alloc: Global, s: &Stmt, before: Settings) -> Result<Settings, AllocError>
    ensures { IfOk result (λ set. settings_of set ≡ (ways_of (plain_statement s.now) (settings_of before)).normal) }
{
    let ways = ways_of(alloc, s, before)?;
    let Ways {
        normal,
        breaks: _,
        continues: _,
    } = ways;
    Ok(normal)
}

/// What is known where an item of a `switch`'s body is entered.
fn case_entry(
    alloc: Global,
    labelled: bool,
    env: &Env,
    before: Option<Env>,
) -> Result<Option<Env>, AllocError>
    ensures { IfOk result (λ e. values_in e ≡ case_entry labelled env.now.values (values_in before)) }
{
    if !labelled {
        return Ok(before);
    }
    let here = env.copy(alloc)?;
    let entry = hull_with(alloc, before, here)?;
    Ok(Some(entry))
}

/// The hull of an environment and another one, if there is one.
pub(crate) fn hull_with(alloc: Global, first: Option<Env>, second: Env) -> Result<Env, AllocError>
    ensures { IfOk result (λ env. values_in (Some env) ≡ hull_reached (values_in first) (Some second.values)) }
{
    match first {
        Some(first) => first.hull_with(alloc, &second),
        None => Ok(second),
    }
}
