//! Environments that a loop makes of that at its entry, variable by variable.

ghost use Rattle.std.specs.Prelude.{◌≡◌, map, IfOk};
ghost use Rattle.std.specs.Option.{option_map};
ghost use Rattle.p10_core.specs.Views.{plain_variable};
ghost use Rattle.p10_range.specs.Ranges.{interval_of};
ghost use Rattle.p10_absx.specs.Abstract.{abstract_of};
ghost use Rattle.p10_absx.specs.Trails.{with_values};
ghost use Rattle.p10_absx.specs.Branches.{unbranched};
ghost use Rattle.p10_pass.specs.Scopes.{changed_each};
ghost use Rattle.p10_pass.specs.private.Renewing.{renewed};
ghost use Rattle.p10_pass.specs.Leaving.{values_in};
ghost use Rattle.p10_pass.specs.Marks.{is_marked};
ghost use Rattle.p10_candidates.specs.Offering.{entry_by};
ghost use Rattle.p10_candidates.specs.Candidates.{any_trial as any_trial_of};
ghost use Rattle.p10_candidates.specs.Trials.{with_known as with_known_of, with_back as with_back_of, head_after as head_of_back};
ghost use Rattle.p10_candidates.specs.private.Trying.{change_by, assigned_by};

use crate::entry::LoopEntry;
use p10_absx::{Abs, Env, only_range, whole_type};
use p10_core::{Variable, integer_of};
use p10_pass::is_marked;
use p10_range::{Range, hull};
use std::alloc::{AllocError, Global};

/// What becomes of a variable that a loop assigns.
#[derive(Clone, Copy)]
pub enum Change<'a> {
    /// It has any value of its type.
    Forgotten,
    /// It has what it has at entry and on the ways back, if a state goes back.
    Back(&'a Option<Env>),
}

/// The environment for the rank 1: a variable that the loop assigns has any value of its type.
pub fn any_trial(alloc: Global, l: &LoopEntry<'_, '_>) -> Result<Env, AllocError>
    ensures { IfOk result (λ env. env ≡ unbranched (any_trial_of (entry_by l.now))) }
{
    changed(alloc, l, &Change::Forgotten)
}

/// What is known at the head of a loop by what is known on its ways back.
pub fn head_after(
    alloc: Global,
    l: &LoopEntry<'_, '_>,
    back: &Option<Env>,
) -> Result<Env, AllocError>
    ensures { IfOk result (λ env. env ≡ unbranched (head_of_back (entry_by l.now) (values_in back.now))) }
{
    changed(alloc, l, &Change::Back(back))
}

/// The environment in which each variable that the loop assigns is changed. More variables than 32 bits number never fit memory, and
/// are answered as out of memory.
fn changed(alloc: Global, l: &LoopEntry<'_, '_>, change: &Change<'_>) -> Result<Env, AllocError>
    ensures { IfOk result (λ env. env ≡ unbranched (changed_each (change_by (entry_by l.now) change.now) 0 (entry_by l.now).variables (entry_by l.now).entry)) }
{
    if l.variables.len() > u32::MAX as usize {
        return Err(AllocError);
    }
    let mut env = l.entry.copy(alloc)?;
    for (n, v) in l.variables.iter().enumerate() {
        change_entry(&mut env, l, change, n as u32, v);
    }
    Ok(env)
}

/// Changes the entry of a variable, if it has one.
fn change_entry(env: &mut Env, l: &LoopEntry<'_, '_>, change: &Change<'_>, n: u32, v: &Variable<'_>)
    ensures { env.new ≡ with_values env.old (renewed (change_by (entry_by l.now) change.now) n (plain_variable v.now) env.old.values) }
{
    if let Some(a) = env.get(n) {
        if is_marked(l.assigned, n as usize) {
            env.set(n, assigned_entry(change, n, v, a));
        } else {
            env.set(n, a);
        }
    }
}

/// What the entry of a variable that the loop assigns becomes.
fn assigned_entry(change: &Change<'_>, n: u32, v: &Variable<'_>, a: Abs) -> Abs
    ensures { abstract_of result ≡ assigned_by change.now n (plain_variable v.now) (abstract_of a) }
{
    match change {
        Change::Forgotten => whole_type(integer_of(&v.ty)),
        Change::Back(back) => only_range(with_back(back, n, a.range)),
    }
}

/// A range together with what may be known.
fn with_known(r: Range, known: Option<Abs>) -> Range
    ensures { interval_of result ≡ with_known_of (interval_of r) (option_map abstract_of known) }
{
    match known {
        Some(a) => hull(r, a.range),
        None => r,
    }
}

/// A range together with what a variable has on the ways back, if a state goes back.
fn with_back(back: &Option<Env>, n: u32, r: Range) -> Range
    ensures { interval_of result ≡ with_back_of (values_in back.now) n (interval_of r) }
{
    match back {
        Some(back) => with_known(r, back.get(n)),
        None => r,
    }
}
