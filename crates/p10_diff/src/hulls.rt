//! What is known where one of two is.

ghost use Rattle.std.specs.Prelude.{◌≡◌, IfOk, OnOk};
ghost use Rattle.std.specs.Option.{option_map};
ghost use Rattle.p10_diff.specs.Differences.{hull_bound};
ghost use Rattle.p10_diff.specs.Domain.{hull, hull_maybe};
ghost use Rattle.p10_diff.specs.Knowing.{pair_by, differences_of};
ghost use Rattle.p10_diff.specs.Listed.{name_of, bounds_listed};
ghost use Rattle.p10_diff.specs.private.Hulls.{hulled, put_once, put_each, put_lists};

use crate::known::{Diff, Pair};
use crate::limits::{greatest, kept};
use crate::listed::Bounded;
use crate::tables::{Table, found, put};
use p10_base::ListBuf;
use std::alloc::{AllocError, Global};

/// The greater of two bounds, where one was kept on either side.
fn hull_bound(
    first: Option<i128>,
    second: Option<i128>,
    a: Option<i128>,
    b: Option<i128>,
) -> Option<i128>
    ensures { result ≡ hull_bound first second a b }
{
    match first {
        None => match second {
            None => None,
            Some(_) => kept(greatest(a, b)),
        },
        Some(_) => kept(greatest(a, b)),
    }
}

/// The bound of a difference where one of two is known.
fn hulled(p: &Pair<'_, '_>, a: &Diff, b: &Diff, x: &Bounded) -> Option<i128>
    ensures { result ≡ hulled (pair_by p.now) (differences_of a.now) (differences_of b.now) (name_of x.now.greater) (name_of x.now.lesser) }
{
    let first = found(a.bounds.as_slice(), x.greater, x.lesser);
    let second = found(b.bounds.as_slice(), x.greater, x.lesser);
    let most = p.bound(a, x.greater, x.lesser);
    let other = p.bound(b, x.greater, x.lesser);
    hull_bound(first, second, most, other)
}

/// Puts the bound of a difference, unless there is one of it.
fn put_once(
    alloc: Global,
    p: &Pair<'_, '_>,
    a: &Diff,
    b: &Diff,
    x: &Bounded,
    bounds: &mut Table,
) -> Result<(), AllocError>
    ensures { OnOk result (bounds_listed bounds.new.items ≡ put_once (hulled (pair_by p.now) (differences_of a.now) (differences_of b.now)) (bounds_listed bounds.old.items) x.now) }
{
    if found(bounds.as_slice(), x.greater, x.lesser).is_some() {
        return Ok(());
    }
    let most = hulled(p, a, b, x);
    put(alloc, bounds, x.greater, x.lesser, most)
}

/// The same of each difference of which one is in a list. So a hull has no more bounds than there are differences.
fn put_each(
    alloc: Global,
    p: &Pair<'_, '_>,
    a: &Diff,
    b: &Diff,
    of: &[Bounded],
    bounds: &mut Table,
) -> Result<(), AllocError>
    ensures { OnOk result (bounds_listed bounds.new.items ≡ put_each (hulled (pair_by p.now) (differences_of a.now) (differences_of b.now)) (bounds_listed bounds.old.items) of.now) }
{
    for x in of {
        put_once(alloc, p, a, b, x, bounds)?;
    }
    Ok(())
}

/// The same of all lists of a table.
fn put_lists(
    alloc: Global,
    p: &Pair<'_, '_>,
    a: &Diff,
    b: &Diff,
    of: &[ListBuf<Bounded>],
    bounds: &mut Table,
) -> Result<(), AllocError>
    ensures { OnOk result (bounds_listed bounds.new.items ≡ put_lists (hulled (pair_by p.now) (differences_of a.now) (differences_of b.now)) (bounds_listed bounds.old.items) of.now) }
{
    for list in of {
        put_each(alloc, p, a, b, list.as_slice(), bounds)?;
    }
    Ok(())
}

/// The bounds where one of two is known.
fn bounds_of_both(alloc: Global, p: &Pair<'_, '_>, a: &Diff, b: &Diff) -> Result<Table, AllocError>
    ensures { IfOk result (λ all. bounds_listed all.items ≡ hulled (pair_by p.now) (differences_of a.now) (differences_of b.now)) }
{
    let mut all = Vec::new(alloc);
    put_lists(alloc, p, a, b, a.bounds.as_slice(), &mut all)?;
    put_lists(alloc, p, a, b, b.bounds.as_slice(), &mut all)?;
    Ok(all)
}

/// One of two is known.
pub(crate) fn hull(alloc: Global, p: &Pair<'_, '_>, a: &Diff, b: &Diff) -> Result<Diff, AllocError>
    ensures { IfOk result (λ e. differences_of e ≡ hull (pair_by p.now) (differences_of a.now) (differences_of b.now)) }
{
    let bounds = bounds_of_both(alloc, p, a, b)?;
    Ok(Diff {
        ranges: a.ranges.hull_with(alloc, &b.ranges)?,
        bounds,
        fall: kept(greatest(p.fallen(a), p.fallen(b))),
    })
}

/// The same where a state may not come in one of two ways.
pub(crate) fn hull_maybe(
    alloc: Global,
    p: &Pair<'_, '_>,
    a: Option<Diff>,
    b: Option<Diff>,
) -> Result<Option<Diff>, AllocError>
    ensures { IfOk result (λ r. option_map differences_of r ≡ hull_maybe (pair_by p.now) (option_map differences_of a) (option_map differences_of b)) }
{
    match a {
        Some(a) => match b {
            Some(b) => Ok(Some(hull(alloc, p, &a, &b)?)),
            None => Ok(Some(a)),
        },
        None => Ok(b),
    }
}
