//! The ranks that are tried for a loop.

ghost use Rattle.std.specs.Prelude.{◌≡◌, ◌++◌, map, take, flat_map, IfOk, OnOk};
ghost use Rattle.p10_core.specs.Views.{plain_value};
ghost use Rattle.p10_absx.specs.Comparing.{turned as turned_of};
ghost use Rattle.p10_candidates.specs.Offering.{candidate_by, entry_by};
ghost use Rattle.p10_candidates.specs.Candidates.{candidates as candidates_of, candidate_along as candidate_of, conjunct_candidates, conjuncts, guard_conjuncts, side_candidates, course_candidates, courses_of};
ghost use Rattle.p10_candidates.specs.private.Trying.{side_by, other_in, filled};

use crate::changing::any_trial;
use crate::course::Course;
use crate::entry::LoopEntry;
use crate::trial::{Sides, candidate_along, variable_under, with_zero};
use p10_absx::{Env, turned};
use p10_cert::Rank;
use p10_core::{LogicOp, Value, ValueForm};
use p10_int::BinOp;
use std::alloc::{AllocError, Global};

/// A rank that is tried, and the environment in which it is tried.
#[derive(Drop)]
pub struct Candidate {
    pub rank: Rank,
    pub trial: Env,
}

/// How many candidates of a guard are tried.
const MOST: usize = 4;

/// The candidates of a loop, in the order in which they are tried: the first four of its guard, and then the rank 1. It fails only
/// where memory runs out; a bound that 128 bits don't hold, which no value of C comes to, is answered as that.
pub fn candidates(alloc: Global, l: &LoopEntry<'_, '_>) -> Result<Vec<Candidate>, AllocError>
    ensures { IfOk result (λ found. map candidate_by found.items ≡ candidates_of (entry_by l.now)) }
{
    let mut found = guard_candidates(alloc, l)?;
    let trial = any_trial(alloc, l)?;
    found.push(Candidate {
        rank: Rank::One,
        trial,
    })?;
    Ok(found)
}

/// The first four candidates of a loop's guard.
fn guard_candidates(alloc: Global, l: &LoopEntry<'_, '_>) -> Result<Vec<Candidate>, AllocError>
    ensures { IfOk result (λ found. map candidate_by found.items ≡ take 4 (flat_map (conjunct_candidates (entry_by l.now)) (guard_conjuncts (entry_by l.now).guard))) }
{
    let mut found = Vec::new(alloc);
    if let Some(guard) = l.guard {
        put_conjuncts(alloc, l, guard, &mut found)?;
    }
    Ok(found)
}

/// Puts the candidates of the conjuncts of a value after others, until there are four.
fn put_conjuncts(
    alloc: Global,
    l: &LoopEntry<'_, '_>,
    v: &Value,
    found: &mut Vec<Candidate>,
) -> Result<(), AllocError>
    ensures { OnOk result (map candidate_by found.new.items ≡ filled (map candidate_by found.old.items) (flat_map (conjunct_candidates (entry_by l.now)) (conjuncts (plain_value v.now)))) }
{
    match &v.form {
        ValueForm::Logic(op, a, b) => match op {
            LogicOp::And => {
                put_conjuncts(alloc, l, a, found)?;
                put_conjuncts(alloc, l, b, found)
            }
            LogicOp::Or => put_side(alloc, l, BinOp::Ne, with_zero(v), found),
        },
        ValueForm::Binary(op, a, b) => put_compared(alloc, l, *op, a, b, found),
        ValueForm::Const(_)
        | ValueForm::Read(_)
        | ValueForm::Sense(_)
        | ValueForm::Addr(_)
        | ValueForm::Decay(_)
        | ValueForm::Convert(_)
        | ValueForm::Cast(_)
        | ValueForm::Unary(_, _)
        | ValueForm::Cond(_, _, _)
        | ValueForm::Call(_, _, _)
        | ValueForm::Builtin(_, _, _) => put_side(alloc, l, BinOp::Ne, with_zero(v), found),
    }
}

/// Puts the candidates of both sides of a comparison.
fn put_compared(
    alloc: Global,
    l: &LoopEntry<'_, '_>,
    op: BinOp,
    a: &Value,
    b: &Value,
    found: &mut Vec<Candidate>,
) -> Result<(), AllocError>
    ensures { OnOk result (map candidate_by found.new.items ≡ filled (map candidate_by found.old.items) (side_candidates (entry_by l.now) op (plain_value a.now) (plain_value b.now) ++ side_candidates (entry_by l.now) (turned_of op) (plain_value b.now) (plain_value a.now))) }
{
    let left = Sides {
        side: a,
        other: Some(b),
    };
    let right = Sides {
        side: b,
        other: Some(a),
    };
    put_side(alloc, l, op, left, found)?;
    put_side(alloc, l, turned(op), right, found)
}

/// Puts the candidates of one side of a comparison.
fn put_side(
    alloc: Global,
    l: &LoopEntry<'_, '_>,
    op: BinOp,
    sides: Sides<'_>,
    found: &mut Vec<Candidate>,
) -> Result<(), AllocError>
    ensures { OnOk result (map candidate_by found.new.items ≡ filled (map candidate_by found.old.items) (side_candidates (entry_by l.now) op (side_by sides.entry) (other_in sides.entry))) }
{
    match variable_under(sides.side) {
        Some(v) => put_courses(alloc, l, op, sides, v, found),
        None => Ok(()),
    }
}

/// Puts the candidates of a side that names a variable.
fn put_courses(
    alloc: Global,
    l: &LoopEntry<'_, '_>,
    op: BinOp,
    sides: Sides<'_>,
    v: u32,
    found: &mut Vec<Candidate>,
) -> Result<(), AllocError>
    ensures { OnOk result (map candidate_by found.new.items ≡ filled (map candidate_by found.old.items) (flat_map (candidate_of (entry_by l.now) (side_by sides.entry) (other_in sides.entry) v) (courses_of op))) }
{
    match op {
        BinOp::Lt => put_course(alloc, l, sides, v, Course::Below, found),
        BinOp::Le => put_course(alloc, l, sides, v, Course::AtMost, found),
        BinOp::Gt => put_course(alloc, l, sides, v, Course::Above, found),
        BinOp::Ge => put_course(alloc, l, sides, v, Course::AtLeast, found),
        BinOp::Ne => {
            put_course(alloc, l, sides, v, Course::Below, found)?;
            put_course(alloc, l, sides, v, Course::Above, found)
        }
        BinOp::Add | BinOp::Sub | BinOp::Mul | BinOp::Div | BinOp::Rem => Ok(()),
        BinOp::Shl | BinOp::Shr | BinOp::And | BinOp::Or | BinOp::Xor | BinOp::Eq => Ok(()),
    }
}

/// Puts the candidate of a side that names a variable, on a course, if there is one.
fn put_course(
    alloc: Global,
    l: &LoopEntry<'_, '_>,
    sides: Sides<'_>,
    v: u32,
    course: Course,
    found: &mut Vec<Candidate>,
) -> Result<(), AllocError>
    ensures { OnOk result (map candidate_by found.new.items ≡ filled (map candidate_by found.old.items) (candidate_of (entry_by l.now) (side_by sides.entry) (other_in sides.entry) v course)) }
{
    if found.len() >= MOST {
        return Ok(());
    }
    if let Some(candidate) = candidate_along(alloc, l, sides, v, course)? {
        found.push(candidate)?;
    }
    Ok(())
}
