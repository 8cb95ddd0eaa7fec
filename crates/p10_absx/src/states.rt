//! Environments that changes stand for: applied, joined, and the hull of two.

ghost use Rattle.std.specs.Prelude.{◌≡◌, ◌++◌, IfOk, OnOk, true, false};
ghost use Rattle.std.specs.Option.{option_map};
ghost use Rattle.p10_absx.specs.Abstract.{abstract_of};
ghost use Rattle.p10_absx.specs.Environments.{Environment, hull_entry as hull_entry_of, hull_environment, hull_reached};
ghost use Rattle.p10_absx.specs.Assessing.{zero_side, known_where};
ghost use Rattle.p10_absx.specs.private.Changes.{replaced_of, replaced_in, applied, widened, widened_one};
ghost use Rattle.p10_absx.specs.private.Found.{side_of, assessed_of, state_of};
ghost use Rattle.p10_absx.specs.Trails.{with_values, branched};

use crate::abs::Abs;
use crate::changes::{Change, Side};
use crate::env::Env;
use crate::found::Found;
use crate::operators::{hull_abstract, only_range};
use p10_int::BinOp;
use p10_range::Range;
use std::alloc::{AllocError, Global};

/// What is changed where a value is true and where it is false; `None` where no state is left.
#[derive(Drop)]
pub struct Sides {
    pub truth: Option<Vec<Change>>,
    pub contrary: Option<Vec<Change>>,
}

/// What is known of a variable where it is one of two.
pub fn hull_entry(a: Option<Abs>, b: Option<Abs>) -> Option<Abs>
    ensures { option_map abstract_of result ≡ hull_entry_of (option_map abstract_of a) (option_map abstract_of b) }
{
    match (a, b) {
        (Some(a), Some(b)) => Some(hull_abstract(a, b)),
        _ => None,
    }
}

/// Changes one after the other.
fn joined(alloc: Global, first: &[Change], more: &[Change]) -> Result<Vec<Change>, AllocError>
    ensures { IfOk result (λ v. replaced_in v.items ≡ replaced_in first.now ++ replaced_in more.now) }
{
    let mut all = Vec::with_capacity(alloc, first.len())?;
    all.extend_from_slice(first)?;
    all.extend_from_slice(more)?;
    Ok(all)
}

/// The 0 with which a plain value is compared where it is tested.
fn zero() -> Side
    ensures { side_of result ≡ zero_side }
{
    Side {
        variable: None,
        value: Some(only_range(Range { lo: 0, hi: 0 })),
    }
}

/// Changes after which each variable has what it has in an environment too.
fn widen(alloc: Global, env: &Env, changes: &[Change]) -> Result<Vec<Change>, AllocError>
    ensures { IfOk result (λ v. replaced_in v.items ≡ widened env.now.values (replaced_in changes.now)) }
{
    let mut all = Vec::with_capacity(alloc, changes.len())?;
    for change in changes {
        all.push(widen_one(env, change))?;
    }
    Ok(all)
}

/// The same for one change.
fn widen_one(env: &Env, change: &Change) -> Change
    ensures { replaced_of result ≡ widened_one env.now.values (replaced_of change.now) }
{
    Change {
        variable: change.variable,
        known: hull_entry(env.get(change.variable), change.known),
    }
}

impl Env {
    /// Makes changes.
    pub(crate) fn apply(&mut self, changes: &[Change])
        ensures { self.new ≡ with_values self.old (applied (replaced_in changes.now) self.old.values) }
    {
        for change in changes {
            self.put(change.variable as usize, change.known);
        }
    }

    /// Opens a branch, and makes changes in it.
    pub(crate) fn enter(&mut self, changes: &[Change]) -> Result<(), AllocError>
        ensures { OnOk result (self.new ≡ with_values (branched self.old) (applied (replaced_in changes.now) self.old.values)) }
    {
        self.open()?;
        self.apply(changes);
        Ok(())
    }

    /// What is changed where a value is true and where it is false.
    pub(crate) fn sides(&self, alloc: Global, found: Found) -> Result<Sides, AllocError>
        ensures truth { IfOk result (λ s. state_of self.now.values s.truth ≡ known_where true self.now.values (assessed_of self.now.values found)) }
        ensures contrary { IfOk result (λ s. state_of self.now.values s.contrary ≡ known_where false self.now.values (assessed_of self.now.values found)) }
    {
        match found {
            Found::Scalar(true, side) => Ok(Sides {
                truth: self.compared(alloc, BinOp::Ne, side, zero())?,
                contrary: self.compared(alloc, BinOp::Eq, side, zero())?,
            }),
            Found::Scalar(false, _) => Ok(Sides {
                truth: Some(Vec::new(alloc)),
                contrary: Some(Vec::new(alloc)),
            }),
            Found::Test(truth, contrary) => Ok(Sides { truth, contrary }),
        }
    }

    /// Changes that give the hull of what two give.
    fn hull_changes(
        &mut self,
        alloc: Global,
        first: &[Change],
        second: &[Change],
    ) -> Result<Vec<Change>, AllocError>
        ensures same { OnOk result (self.new ≡ self.old) }
        ensures hull { IfOk result (λ v. applied (replaced_in v.items) self.old.values ≡ hull_environment (applied (replaced_in first.now) self.old.values) (applied (replaced_in second.now) self.old.values)) }
    {
        self.enter(second)?;
        let inner = widen(alloc, self, first)?;
        self.take_back();
        let outer = widen(alloc, self, second)?;
        joined(alloc, &outer, &inner)
    }

    /// Changes that give the hull of what two give that may be none.
    pub(crate) fn hull(
        &mut self,
        alloc: Global,
        first: Option<Vec<Change>>,
        second: Option<Vec<Change>>,
    ) -> Result<Option<Vec<Change>>, AllocError>
        ensures same { OnOk result (self.new ≡ self.old) }
        ensures hull { IfOk result (λ r. state_of self.old.values r ≡ hull_reached (state_of self.old.values first) (state_of self.old.values second)) }
    {
        match (first, second) {
            (Some(first), Some(second)) => Ok(Some(self.hull_changes(alloc, &first, &second)?)),
            (Some(first), None) => Ok(Some(first)),
            (None, second) => Ok(second),
        }
    }
}

/// Changes after others, where there are any.
pub fn after(
    alloc: Global,
    first: &[Change],
    more: Option<Vec<Change>>,
) -> Result<Option<Vec<Change>>, AllocError>
    ensures { IfOk result (λ r. (env : Environment) → state_of env r ≡ state_of (applied (replaced_in first.now) env) more) }
{
    match more {
        Some(more) => Ok(Some(joined(alloc, first, &more)?)),
        None => Ok(None),
    }
}
