//! Bounds of differences by names, in lists by the numbers of both names: so each is found in a short list.

ghost use Rattle.std.specs.Prelude.{◌≡◌, ◌≤◌, ◌<◌, length, map, IfOk, OnOk};
ghost use Rattle.p10_core.specs.Views.{plain_statement};
ghost use Rattle.p10_meaning.specs.Variables.{may_change};
ghost use Rattle.p10_pass.specs.Marks.{AreMarks};
ghost use Rattle.p10_diff.specs.Differences.{learned_bound, unmarked_bounds};
ghost use Rattle.p10_diff.specs.Domain.{only};
ghost use Rattle.p10_diff.specs.Listed.{name_of, without_marked, number_of, place_of, list_at, bounds_listed, with_last, with_one};

use crate::changes::Changes;
use crate::limits::{kept, least};
use crate::listed::{Bounded, Name, copied, found_in, without_changed, without_one};
use p10_base::ListBuf;
use std::alloc::{AllocError, Global};

/// Bounds of differences: those of one are in the list whose number its names give. Lists that are lacking are empty.
pub(crate) type Table = Vec<ListBuf<Bounded>>;

/// How many lists a table has once something is put into it.
const LISTS: usize = 256;

/// The number of a name's variable.
fn number(u: Name) -> usize
    ensures is { result ≡ number_of (name_of u) }
    ensures small { result < 4294967296 }
{
    match u {
        Name::Now(n) => n as usize,
        Name::Was(n) => n as usize,
    }
}

/// The number of the list that has the bounds of a difference.
fn place(u: Name, w: Name) -> usize
    ensures is { result ≡ place_of (name_of u) (name_of w) }
    ensures small { result < 256 }
{
    (17 * number(u) + number(w)) % LISTS
}

/// The list with a number.
fn list_at(table: &[ListBuf<Bounded>], i: usize) -> &[Bounded]
    ensures { result.now ≡ list_at table.now i }
{
    match table.get(i) {
        Some(list) => list.as_slice(),
        None => &[],
    }
}

/// The bound of a difference.
pub(crate) fn found(table: &[ListBuf<Bounded>], u: Name, w: Name) -> Option<i128>
    ensures { result ≡ bounds_listed table.now (name_of u) (name_of w) }
{
    found_in(list_at(table, place(u, w)), u, w)
}

/// Gives a table all its lists.
fn fill(alloc: Global, table: &mut Table) -> Result<(), AllocError>
    ensures same { OnOk result (list_at table.new.items ≡ list_at table.old.items) }
    ensures all { OnOk result (256 ≤ length table.new.items) }
{
    while table.len() < LISTS {
        let none = Vec::new(alloc);
        table.push(ListBuf::of(none))?;
    }
    Ok(())
}

/// Puts a bound at the end of the list with a number.
fn put_in(alloc: Global, table: &mut Table, i: usize, x: Bounded) -> Result<(), AllocError>
    requires { i < 256 }
    ensures { OnOk result (list_at table.new.items ≡ with_last i x (list_at table.old.items)) }
{
    fill(alloc, table)?;
    table[i].push(x)?;
    Ok(())
}

/// Puts a bound of a difference, if there is one.
pub(crate) fn put(
    alloc: Global,
    table: &mut Table,
    u: Name,
    w: Name,
    most: Option<i128>,
) -> Result<(), AllocError>
    ensures { OnOk result (bounds_listed table.new.items ≡ with_one u w most (bounds_listed table.old.items)) }
{
    match most {
        Some(most) => {
            let x = Bounded {
                greater: u,
                lesser: w,
                most,
            };
            put_in(alloc, table, place(u, w), x)
        }
        None => Ok(()),
    }
}

/// A difference is at most a number.
pub(crate) fn learn(
    alloc: Global,
    table: &mut Table,
    u: Name,
    w: Name,
    c: i128,
) -> Result<(), AllocError>
    ensures { OnOk result (bounds_listed table.new.items ≡ learned_bound (name_of u) (name_of w) c (bounds_listed table.old.items)) }
{
    let most = least(found(table.as_slice(), u, w), kept(Some(c)));
    put(alloc, table, u, w, most)
}

/// The bounds of which no name may change.
pub(crate) fn unchanged(
    alloc: Global,
    c: &Changes<'_>,
    table: &[ListBuf<Bounded>],
) -> Result<Table, AllocError>
    requires { AreMarks (λ n. may_change n (plain_statement c.now.by.now)) c.now.count c.now.marks.now }
    ensures { IfOk result (λ left. bounds_listed left.items ≡ unmarked_bounds (λ n. may_change n (plain_statement c.now.by.now)) (bounds_listed table.now)) }
{
    let left = lists_without_changed(alloc, c, table)?;
    Ok(left)
}

/// The same lists without the others.
fn lists_without_changed(
    alloc: Global,
    c: &Changes<'_>,
    table: &[ListBuf<Bounded>],
) -> Result<Table, AllocError>
    requires { AreMarks (λ n. may_change n (plain_statement c.now.by.now)) c.now.count c.now.marks.now }
    ensures { IfOk result (λ left. left.items ≡ map (without_marked (λ n. may_change n (plain_statement c.now.by.now))) table.now) }
{
    let mut left = Vec::with_capacity(alloc, table.len())?;
    for list in table {
        let others = without_changed(alloc, c, list.as_slice())?;
        left.push(ListBuf::of(others))?;
    }
    Ok(left)
}

/// The bounds that don't name what a variable holds now.
pub(crate) fn without_variable(
    alloc: Global,
    n: u32,
    table: &[ListBuf<Bounded>],
) -> Result<Table, AllocError>
    ensures { IfOk result (λ left. bounds_listed left.items ≡ unmarked_bounds (only n) (bounds_listed table.now)) }
{
    let left = lists_without_one(alloc, n, table)?;
    Ok(left)
}

/// The same lists without the others.
fn lists_without_one(alloc: Global, n: u32, table: &[ListBuf<Bounded>]) -> Result<Table, AllocError>
    ensures { IfOk result (λ left. left.items ≡ map (without_marked (only n)) table.now) }
{
    let mut left = Vec::with_capacity(alloc, table.len())?;
    for list in table {
        let others = without_one(alloc, n, list.as_slice())?;
        left.push(ListBuf::of(others))?;
    }
    Ok(left)
}

/// The same bounds again.
pub(crate) fn copied_table(alloc: Global, table: &[ListBuf<Bounded>]) -> Result<Table, AllocError>
    ensures { IfOk result (λ all. all.items ≡ table.now) }
{
    let mut all = Vec::with_capacity(alloc, table.len())?;
    for list in table {
        let again = copied(alloc, list.as_slice())?;
        all.push(ListBuf::of(again))?;
    }
    Ok(all)
}
