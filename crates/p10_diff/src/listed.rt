//! Bounds of differences by names, in one list: of two bounds of the same difference the later one counts.

ghost use Rattle.std.specs.Prelude.{◌≡◌, ◌++◌, ◌∷◌, [], if◌then◌else◌, Some, IfOk, OnOk};
ghost use Rattle.p10_diff.specs.Differences.{same_name, is_marked as is_marked_name};
ghost use Rattle.p10_diff.specs.Domain.{only};
ghost use Rattle.p10_diff.specs.Listed.{name_of, is_of, found_in, names_marked, without_marked};
ghost use Rattle.p10_core.specs.Views.{plain_statement};
ghost use Rattle.p10_meaning.specs.Variables.{may_change};
ghost use Rattle.p10_pass.specs.Marks.{AreMarks};

use crate::changes::Changes;
use std::alloc::{AllocError, Global};

/// A number by its name.
#[derive(Clone, Copy, Debug, PartialEq, Eq)]
pub enum Name {
    /// What the variable with this number holds now.
    Now(u32),
    /// What it held at the head of the loop.
    Was(u32),
}

/// The difference of two names is at most a number.
#[derive(Debug, PartialEq, Eq, Drop)]
pub struct Bounded {
    pub greater: Name,
    pub lesser: Name,
    pub most: i128,
}

/// Whether two names are one.
pub(crate) fn same_name(a: Name, b: Name) -> bool
    ensures { result ≡ same_name (name_of a) (name_of b) }
{
    match a {
        Name::Now(n) => match b {
            Name::Now(m) => n == m,
            Name::Was(_) => false,
        },
        Name::Was(n) => match b {
            Name::Now(_) => false,
            Name::Was(m) => n == m,
        },
    }
}

/// Whether a bound is of this difference.
fn is_of(x: &Bounded, u: Name, w: Name) -> bool
    ensures { result ≡ is_of x.now (name_of u) (name_of w) }
{
    same_name(x.greater, u) && same_name(x.lesser, w)
}

/// What is found up to a bound: its own where it is of this difference, or else what was found before.
fn found_up_to(x: &Bounded, u: Name, w: Name, last: Option<i128>) -> Option<i128>
    ensures { result ≡ (if is_of x.now (name_of u) (name_of w) then Some x.now.most else last) }
{
    if is_of(x, u, w) { Some(x.most) } else { last }
}

/// The bound of a difference in a list.
pub(crate) fn found_in(bounds: &[Bounded], u: Name, w: Name) -> Option<i128>
    ensures { result ≡ found_in bounds.now (name_of u) (name_of w) }
{
    let mut last = None;
    for x in bounds {
        last = found_up_to(x, u, w, last);
    }
    last
}

/// Whether a name is what a variable holds now that may change.
fn names_change(c: &Changes<'_>, u: Name) -> bool
    requires { AreMarks (λ n. may_change n (plain_statement c.now.by.now)) c.now.count c.now.marks.now }
    ensures { result ≡ is_marked_name (λ n. may_change n (plain_statement c.now.by.now)) (name_of u) }
{
    match u {
        Name::Now(n) => c.may_change(n),
        Name::Was(_) => false,
    }
}

/// Whether one of a bound's names is.
fn bound_changes(c: &Changes<'_>, x: &Bounded) -> bool
    requires { AreMarks (λ n. may_change n (plain_statement c.now.by.now)) c.now.count c.now.marks.now }
    ensures { result ≡ names_marked (λ n. may_change n (plain_statement c.now.by.now)) x.now }
{
    names_change(c, x.greater) || names_change(c, x.lesser)
}

/// A list without the bounds of which a name may change.
pub(crate) fn without_changed(
    alloc: Global,
    c: &Changes<'_>,
    bounds: &[Bounded],
) -> Result<Vec<Bounded>, AllocError>
    requires { AreMarks (λ n. may_change n (plain_statement c.now.by.now)) c.now.count c.now.marks.now }
    ensures { IfOk result (λ left. left.items ≡ without_marked (λ n. may_change n (plain_statement c.now.by.now)) bounds.now) }
{
    let mut left = Vec::with_capacity(alloc, bounds.len())?;
    for x in bounds {
        put_unless(bound_changes(c, x), x, &mut left)?;
    }
    Ok(left)
}

/// Whether one of a bound's names is what a variable holds now.
fn names_variable(n: u32, x: &Bounded) -> bool
    ensures { result ≡ names_marked (only n) x.now }
{
    same_name(x.greater, Name::Now(n)) || same_name(x.lesser, Name::Now(n))
}

/// A list without the bounds that name what a variable holds now.
pub(crate) fn without_one(
    alloc: Global,
    n: u32,
    bounds: &[Bounded],
) -> Result<Vec<Bounded>, AllocError>
    ensures { IfOk result (λ left. left.items ≡ without_marked (only n) bounds.now) }
{
    let mut left = Vec::with_capacity(alloc, bounds.len())?;
    for x in bounds {
        put_unless(names_variable(n, x), x, &mut left)?;
    }
    Ok(left)
}

/// The same list again.
pub(crate) fn copied(alloc: Global, bounds: &[Bounded]) -> Result<Vec<Bounded>, AllocError>
    ensures { IfOk result (λ all. all.items ≡ bounds.now) }
{
    let mut all = Vec::with_capacity(alloc, bounds.len())?;
    for x in bounds {
        put_unless(false, x, &mut all)?;
    }
    Ok(all)
}

/// Puts a bound, unless it is left out.
fn put_unless(out: bool, x: &Bounded, left: &mut Vec<Bounded>) -> Result<(), AllocError>
    ensures { OnOk result (left.new.items ≡ (if out then left.old.items else left.old.items ++ (x.now ∷ []))) }
{
    if !out {
        left.push(Bounded {
            greater: x.greater,
            lesser: x.lesser,
            most: x.most,
        })?;
    }
    Ok(())
}
