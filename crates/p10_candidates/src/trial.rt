//! The trial of a candidate: the environment in which it is tried, and whether a side of a comparison names its variable there.

ghost use Rattle.std.specs.Prelude.{◌≡◌, map, slice_get, IfOk, OnOk, None, option_to_list};
ghost use Rattle.std.specs.Option.{option_map, option_copied};
ghost use Rattle.p10_core.specs.Views.{plain_value, plain_place, plain_variable};
ghost use Rattle.p10_range.specs.Ranges.{interval_of};
ghost use Rattle.p10_absx.specs.Assessing.{abstract_value};
ghost use Rattle.p10_absx.specs.Environments.{known};
ghost use Rattle.p10_absx.specs.Trails.{with_values};
ghost use Rattle.p10_absx.specs.Branches.{unbranched};
ghost use Rattle.p10_candidates.specs.Offering.{candidate_by, entry_by};
ghost use Rattle.p10_candidates.specs.Candidates.{candidate_along as candidate_of, is_that, rank_along as rank_of, range_along as range_of, trial_along as trial_of, moved_along, variable_named, variable_under as variable_of_value, zero_for};
ghost use Rattle.p10_candidates.specs.private.Trying.{side_by, other_in, range_in, type_of_variable};

use crate::changing::any_trial;
use crate::course::Course;
use crate::entry::LoopEntry;
use crate::guard::Candidate;
use p10_absx::{Env, only_range, values};
use p10_cert::Rank;
use p10_core::{Place, PlaceForm, Value, ValueForm, Variable, integer_of};
use p10_int::IntType;
use p10_pass::is_marked;
use p10_range::{Range, hull};
use std::alloc::{AllocError, Global};

/// The sides of a comparison: one that may name a variable, and the other one, or the constant 0.
#[derive(Clone, Copy)]
pub struct Sides<'v> {
    pub side: &'v Value,
    pub other: Option<&'v Value>,
}

/// A value that is compared with 0.
pub fn with_zero(v: &Value) -> Sides<'_>
    ensures side { side_by result ≡ plain_value v.now }
    ensures other { other_in result ≡ zero_for (plain_value v.now) }
{
    Sides {
        side: v,
        other: None,
    }
}

/// The candidate of a side that names a variable, on a course to the other side.
pub fn candidate_along(
    alloc: Global,
    l: &LoopEntry<'_, '_>,
    sides: Sides<'_>,
    v: u32,
    course: Course,
) -> Result<Option<Candidate>, AllocError>
    ensures { IfOk result (λ c. option_to_list (option_map candidate_by c) ≡ candidate_of (entry_by l.now) (side_by sides.entry) (other_in sides.entry) v course) }
{
    let mut trial = trial_along(alloc, l, v, course)?;
    let named = trial.variable_of(alloc, None, sides.side)?;
    if !is_that(v, named) {
        return Ok(None);
    }
    match other_range(alloc, &mut trial, sides)? {
        Some(range) => {
            let rank = rank_along(course, v, range)?;
            Ok(Some(Candidate { rank, trial }))
        }
        None => Ok(None),
    }
}

/// Whether a variable that may be lacking is variable v.
fn is_that(v: u32, named: Option<u32>) -> bool
    ensures { result ≡ is_that v named }
{
    match named {
        Some(n) => n == v,
        None => false,
    }
}

/// The range of the other side of a comparison in an environment; `None` where it has no value.
fn other_range(
    alloc: Global,
    trial: &mut Env,
    sides: Sides<'_>,
) -> Result<Option<Range>, AllocError>
    ensures same { OnOk result (trial.new ≡ trial.old) }
    ensures range { IfOk result (λ r. option_map interval_of r ≡ range_in (abstract_value None trial.old.values (other_in sides.entry))) }
{
    match sides.other {
        Some(other) => match trial.value(alloc, None, other)? {
            Some(a) => Ok(Some(a.range)),
            None => Ok(None),
        },
        None => Ok(Some(Range { lo: 0, hi: 0 })),
    }
}

/// The rank of a variable on a course, by the range of the other side. A bound that 128 bits don't hold is answered as out of memory.
fn rank_along(course: Course, v: u32, r: Range) -> Result<Rank, AllocError>
    ensures { IfOk result (λ rank. rank ≡ rank_of course v (interval_of r)) }
{
    match course {
        Course::Below => Ok(Rank::Up {
            var: v,
            bound: r.hi,
        }),
        Course::AtMost => match r.hi.checked_add(1) {
            Some(bound) => Ok(Rank::Up { var: v, bound }),
            None => Err(AllocError),
        },
        Course::Above => Ok(Rank::Down {
            var: v,
            bound: r.lo,
        }),
        Course::AtLeast => match r.lo.checked_sub(1) {
            Some(bound) => Ok(Rank::Down { var: v, bound }),
            None => Err(AllocError),
        },
    }
}

/// The environment for a variable on a course: the same, except that it comes by the course from its range at entry, if the loop
/// assigns it.
fn trial_along(
    alloc: Global,
    l: &LoopEntry<'_, '_>,
    v: u32,
    course: Course,
) -> Result<Env, AllocError>
    ensures { IfOk result (λ env. env ≡ unbranched (trial_of (entry_by l.now) v course)) }
{
    let mut trial = any_trial(alloc, l)?;
    if is_marked(l.assigned, v as usize) {
        move_along(l, v, course, &mut trial);
    }
    Ok(trial)
}

/// Gives a variable the range to which it comes by a course from its range at entry.
fn move_along(l: &LoopEntry<'_, '_>, v: u32, course: Course, trial: &mut Env)
    ensures { trial.new ≡ with_values trial.old (moved_along v course (slice_get (entry_by l.now).variables v) (known (entry_by l.now).entry v) trial.old.values) }
{
    if let Some(kind) = type_at(l.variables, v) {
        if let Some(a) = l.entry.get(v) {
            trial.set(v, only_range(range_along(course, kind, a.range)));
        }
    }
}

/// The integer type of a variable by its number.
fn type_at(variables: &[Variable<'_>], v: u32) -> Option<IntType>
    ensures { result ≡ option_map type_of_variable (slice_get (map plain_variable variables.now) v) }
{
    match variables.get(v as usize) {
        Some(x) => Some(integer_of(&x.ty)),
        None => None,
    }
}

/// Where a variable of a type may come on a course from a range.
fn range_along(course: Course, kind: IntType, r: Range) -> Range
    ensures { interval_of result ≡ range_of course kind (interval_of r) }
{
    let all = values(kind);
    match course {
        Course::Below | Course::AtMost => hull(
            r,
            Range {
                lo: all.hi,
                hi: all.hi,
            },
        ),
        Course::Above | Course::AtLeast => hull(
            r,
            Range {
                lo: all.lo,
                hi: all.lo,
            },
        ),
    }
}

/// The variable that a place is.
fn variable_named(place: &Place) -> Option<u32>
    ensures { result ≡ variable_named (plain_place place.now) }
{
    match &place.form {
        PlaceForm::Var(n) => Some(*n),
        PlaceForm::Global(_)
        | PlaceForm::Literal(_, _)
        | PlaceForm::Index(_, _)
        | PlaceForm::Member(_, _)
        | PlaceForm::Deref(_) => None,
    }
}

/// The variable of which a value is the value, under conversions and casts.
pub fn variable_under(v: &Value) -> Option<u32>
    ensures { result ≡ variable_of_value (plain_value v.now) }
{
    match &v.form {
        ValueForm::Read(place) => variable_named(place),
        ValueForm::Convert(part) | ValueForm::Cast(part) => variable_under(part),
        ValueForm::Const(_)
        | ValueForm::Sense(_)
        | ValueForm::Addr(_)
        | ValueForm::Decay(_)
        | ValueForm::Unary(_, _)
        | ValueForm::Binary(_, _, _)
        | ValueForm::Logic(_, _, _)
        | ValueForm::Cond(_, _, _)
        | ValueForm::Call(_, _, _)
        | ValueForm::Builtin(_, _, _) => None,
    }
}
