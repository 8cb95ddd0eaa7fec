//! What an assignment to a variable does to differences.

ghost use Rattle.std.specs.Prelude.{◌≡◌, if◌then◌else◌, length, OnOk, IfOk};
ghost use Rattle.p10_diff.specs.Differences.{is_either, unmarked_fall};
ghost use Rattle.p10_diff.specs.Domain.{only, assigned_bounds, assigned};
ghost use Rattle.p10_diff.specs.Knowing.{pair_by, differences_of};
ghost use Rattle.p10_diff.specs.declared.listed.Name.TheVariants.{Was};
ghost use Rattle.p10_diff.specs.Listed.{name_of, bounds_listed};
ghost use Rattle.p10_diff.specs.private.Assigning.{source_up, source_low, IsSource, put_ends, with_pair, with_names, with_all};

use crate::ends::{Ends, met_ends};
use crate::known::{Diff, Pair, range_of};
use crate::listed::{Name, same_name};
use crate::sources::{Source, source_ends};
use crate::tables::{Table, put, without_variable};
use p10_absx::Env;
use std::alloc::{AllocError, Global};

/// A variable, what it is assigned, and what is known afterwards.
#[derive(Clone, Copy)]
pub struct Assignment<'a> {
    pub to: u32,
    pub source: Source<'a>,
    pub after: &'a Env,
}

/// The bounds that are put of the assigned variable and a name.
fn put_ends(
    alloc: Global,
    p: &Pair<'_, '_>,
    e: &mut Diff,
    a: &Assignment<'_>,
    w: Name,
) -> Result<Ends, AllocError>
    requires { IsSource a.now.source }
    ensures same { OnOk result (e.new ≡ e.old) }
    ensures are { IfOk result (λ c. c ≡ put_ends (pair_by p.now) a.now (differences_of e.old) (name_of w)) }
{
    let row = source_ends(alloc, p, e, a.source, w)?;
    let r = range_of(a.after.get(a.to));
    Ok(met_ends(p, a.after, r, w, row))
}

/// Puts both bounds of the assigned variable and a name.
fn put_pair(
    alloc: Global,
    p: &Pair<'_, '_>,
    e: &mut Diff,
    a: &Assignment<'_>,
    w: Name,
    bounds: &mut Table,
) -> Result<(), AllocError>
    requires { IsSource a.now.source }
    ensures same { OnOk result (e.new ≡ e.old) }
    ensures put { OnOk result (bounds_listed bounds.new.items ≡ with_pair (pair_by p.now) a.now (differences_of e.old) w (bounds_listed bounds.old.items)) }
{
    let to = Name::Now(a.to);
    if same_name(to, w) {
        return Ok(());
    }
    let ends = put_ends(alloc, p, e, a, w)?;
    put(alloc, bounds, to, w, ends.above)?;
    put(alloc, bounds, w, to, ends.below)
}

/// The same for what a variable held at the head, if it is one of the two.
fn put_before(
    alloc: Global,
    p: &Pair<'_, '_>,
    e: &mut Diff,
    a: &Assignment<'_>,
    n: u32,
    bounds: &mut Table,
) -> Result<(), AllocError>
    requires { IsSource a.now.source }
    ensures same { OnOk result (e.new ≡ e.old) }
    ensures put { OnOk result (bounds_listed bounds.new.items ≡ (if is_either (pair_by p.now) n then with_pair (pair_by p.now) a.now (differences_of e.old) (Was n) (bounds_listed bounds.old.items) else bounds_listed bounds.old.items)) }
{
    if p.is_either(n) {
        put_pair(alloc, p, e, a, Name::Was(n), bounds)
    } else {
        Ok(())
    }
}

/// The same for all names of a variable, if it has any.
fn put_names(
    alloc: Global,
    p: &Pair<'_, '_>,
    e: &mut Diff,
    a: &Assignment<'_>,
    n: u32,
    bounds: &mut Table,
) -> Result<(), AllocError>
    requires { IsSource a.now.source }
    ensures same { OnOk result (e.new ≡ e.old) }
    ensures put { OnOk result (bounds_listed bounds.new.items ≡ with_names (pair_by p.now) a.now (differences_of e.old) n (bounds_listed bounds.old.items)) }
{
    if !p.has_name(n) {
        return Ok(());
    }
    put_pair(alloc, p, e, a, Name::Now(n), bounds)?;
    put_before(alloc, p, e, a, n, bounds)
}

/// The same for all names. More variables than 32 bits number never fit memory, and are answered as out of memory.
fn put_all(
    alloc: Global,
    p: &Pair<'_, '_>,
    e: &mut Diff,
    a: &Assignment<'_>,
    bounds: &mut Table,
) -> Result<(), AllocError>
    requires { IsSource a.now.source }
    ensures same { OnOk result (e.new ≡ e.old) }
    ensures put { OnOk result (bounds_listed bounds.new.items ≡ with_all (pair_by p.now) a.now (differences_of e.old) (length p.now.variables.now) (bounds_listed bounds.old.items)) }
{
    if p.variables.len() > u32::MAX as usize {
        return Err(AllocError);
    }
    for n in 0..p.variables.len() {
        put_names(alloc, p, e, a, n as u32, bounds)?;
    }
    Ok(())
}

/// The fall after a variable is assigned: nothing is known of it any more where it is one of the two.
pub(crate) fn fall_without(p: &Pair<'_, '_>, n: u32, fall: Option<i128>) -> Option<i128>
    ensures { result ≡ unmarked_fall (pair_by p.now) (only n) fall }
{
    if p.is_either(n) { None } else { fall }
}

/// The bounds after an assignment to a variable that has a name.
fn named_bounds_after(
    alloc: Global,
    p: &Pair<'_, '_>,
    e: &mut Diff,
    a: &Assignment<'_>,
) -> Result<Table, AllocError>
    requires { IsSource a.now.source }
    ensures { IfOk result (λ bounds. bounds_listed bounds.items ≡ assigned_bounds (pair_by p.now) a.now.after.now.values a.now.to (source_up (pair_by p.now) a.now.source (differences_of e.old)) (source_low (pair_by p.now) a.now.source (differences_of e.old)) (differences_of e.old).bounds) }
{
    let mut bounds = without_variable(alloc, a.to, e.bounds.as_slice())?;
    put_all(alloc, p, e, a, &mut bounds)?;
    Ok(bounds)
}

/// The bounds after an assignment.
fn bounds_after(
    alloc: Global,
    p: &Pair<'_, '_>,
    e: &mut Diff,
    a: &Assignment<'_>,
) -> Result<Table, AllocError>
    requires { IsSource a.now.source }
    ensures { IfOk result (λ bounds. bounds_listed bounds.items ≡ (assigned (pair_by p.now) a.now.to (source_up (pair_by p.now) a.now.source (differences_of e.old)) (source_low (pair_by p.now) a.now.source (differences_of e.old)) (differences_of e.old) a.now.after.now.values).bounds) }
{
    if p.has_name(a.to) {
        named_bounds_after(alloc, p, e, a)
    } else {
        without_variable(alloc, a.to, e.bounds.as_slice())
    }
}

/// An assignment to a variable, where ranges are known after it.
pub(crate) fn assign(
    alloc: Global,
    p: &Pair<'_, '_>,
    n: u32,
    source: Source<'_>,
    e: Diff,
    after: Env,
) -> Result<Diff, AllocError>
    requires { IsSource source }
    ensures { IfOk result (λ r. differences_of r ≡ assigned (pair_by p.now) n (source_up (pair_by p.now) source.entry (differences_of e)) (source_low (pair_by p.now) source.entry (differences_of e)) (differences_of e) after.values) }
{
    let mut e = e;
    let a = Assignment {
        to: n,
        source,
        after: &after,
    };
    let fall = fall_without(p, n, e.fall);
    let bounds = bounds_after(alloc, p, &mut e, &a)?;
    Ok(Diff {
        ranges: after,
        bounds,
        fall,
    })
}
