//! What is found in a cast: that of a call of `malloc` or `calloc` is an allocation, by the form of its arguments.

ghost use Rattle.std.specs.Prelude.{◌≡◌, IfOk, length, map, option_map};
ghost use Rattle.p10_core.specs.declared.typed.Library.TheVariants.{Malloc, Calloc};
ghost use Rattle.p10_core.specs.WholePrograms.{AreWholeStructures};
ghost use Rattle.p10_syn.specs.Trees.{expression_row};
ghost use Rattle.p10_syn.specs.Built.{expression_of};
ghost use Rattle.p10_elabx.specs.First.{only_first};
ghost use Rattle.p10_elabx.specs.PlainScopes.{plain_scope, scope_in};
ghost use Rattle.p10_elabx.specs.Judging.{cast_judged, other_allocation, judge, judge_cast, judge_size};
ghost use Rattle.p10_elabx.specs.private.Walking.{memory_call, allocation_call};
ghost use Rattle.p10_elabx.specs.private.Numbers.{plain_bytes, bytes_in};
ghost use Rattle.p10_elabx.specs.Built.{judged_operand, judged_shape};

use crate::allocations::{
    Elements, Site, SizeOf, counted_elements, one_element, other_allocation, two_sizes,
};
use crate::bytes::Bytes;
use crate::callee::Callee;
use crate::calls::{call_judged, memory_called, wanted_of};
use crate::casts::cast_judged;
use crate::judged::Judged;
use crate::names::called_name;
use crate::operand::Operand;
use crate::parts::{stopped, stopped_after_two};
use crate::problem::Problem;
use crate::scope::Scope;
use crate::shape::Shape;
use crate::signs::is_star;
use crate::situation::Situation;
use crate::walk::{judge, judge_arguments, judge_type, judge_value};
use p10_base::{At, SubsetCode};
use p10_core::Library;
use p10_syn::{Expr, Form};
use std::alloc::{AllocError, Global};

/// What is found in a cast to a type: that of a call of `malloc` or `calloc` is an allocation.
#[cycle(judge)]
pub fn judge_cast(
    alloc: Global,
    situation: Situation<'_, '_>,
    e: &Expr<'_>,
    at: At,
    shape: Result<Shape, Option<Problem>>,
) -> Result<Judged<Operand>, AllocError>
    requires { AreWholeStructures (scope_in situation).structures }
    ensures { IfOk result (λ j. judged_operand j ≡ judge_cast only_first (scope_in situation.entry) at (judged_shape shape) (judge only_first (scope_in situation.entry) (expression_of e.now)) (expression_of e.now)) }
{
    match &e.form {
        Form::Call(f, all) => match memory_called(situation, called_name(f)) {
            Some(called) => {
                let (function, name_at) = called;
                let site = Site {
                    cast_at: at,
                    call_at: e.at,
                    name_at,
                };
                let seen = judge_allocation(alloc, situation, all, site, function, shape)?;
                Ok(seen)
            }
            None => {
                let seen = plain_cast(alloc, situation, e, at, shape)?;
                Ok(seen)
            }
        },
        _ => {
            let seen = plain_cast(alloc, situation, e, at, shape)?;
            Ok(seen)
        }
    }
}

/// What is found in a cast of an operand.
#[cycle(judge)]
fn plain_cast(
    alloc: Global,
    situation: Situation<'_, '_>,
    e: &Expr<'_>,
    at: At,
    shape: Result<Shape, Option<Problem>>,
) -> Result<Judged<Operand>, AllocError>
    requires { AreWholeStructures (scope_in situation).structures }
    ensures { IfOk result (λ j. judged_operand j ≡ cast_judged only_first (scope_in situation.entry).structures at (judged_shape shape) (judge only_first (scope_in situation.entry) (expression_of e.now))) }
{
    let operand = judge(alloc, situation, e)?;
    cast_judged(alloc, &situation.scope.types, at, shape, operand)
}

/// What is found in an allocation under a cast.
#[cycle(judge)]
fn judge_allocation(
    alloc: Global,
    situation: Situation<'_, '_>,
    all: &[Expr<'_>],
    site: Site,
    function: Library,
    shape: Result<Shape, Option<Problem>>,
) -> Result<Judged<Operand>, AllocError>
    requires { AreWholeStructures (scope_in situation).structures }
    ensures { IfOk result (λ j. judged_operand j ≡ allocation_call only_first (scope_in situation.entry) site (judged_shape shape) function (expression_row (map expression_of all.now))) }
{
    match function {
        Library::Malloc => {
            if all.len() == 1 {
                let seen = judge_bytes(alloc, situation, all, site, shape)?;
                Ok(seen)
            } else {
                let seen = other_memory(alloc, situation, all, site, function, shape)?;
                Ok(seen)
            }
        }
        Library::Calloc => {
            if all.len() == 2 {
                let seen = judge_cleared(alloc, situation, all, site, shape)?;
                Ok(seen)
            } else {
                let seen = other_memory(alloc, situation, all, site, function, shape)?;
                Ok(seen)
            }
        }
        Library::Assert | Library::CAssert | Library::Getchar | Library::Putchar | Library::Free =>
            {
                let seen = other_memory(alloc, situation, all, site, function, shape)?;
                Ok(seen)
            }
    }
}

/// What is found in an allocation of another form.
#[cycle(judge)]
fn other_memory(
    alloc: Global,
    situation: Situation<'_, '_>,
    all: &[Expr<'_>],
    site: Site,
    function: Library,
    shape: Result<Shape, Option<Problem>>,
) -> Result<Judged<Operand>, AllocError>
    requires { AreWholeStructures (scope_in situation).structures }
    ensures { IfOk result (λ j. judged_operand j ≡ other_allocation only_first site (judged_shape shape) (memory_call only_first (scope_in situation.entry) site function (expression_row (map expression_of all.now)))) }
{
    let callee = Callee::Library(function);
    let count = all.len();
    let list = judge_arguments(alloc, situation, all, wanted_of(&callee, count))?;
    let seen = call_judged(alloc, site.call_at, site.name_at, &callee, count, list)?;
    Ok(other_allocation(site, shape, seen))
}

/// What is found in a call of `calloc` with two arguments under a cast.
#[cycle(judge)]
fn judge_cleared(
    alloc: Global,
    situation: Situation<'_, '_>,
    all: &[Expr<'_>],
    site: Site,
    shape: Result<Shape, Option<Problem>>,
) -> Result<Judged<Operand>, AllocError>
    requires structures { AreWholeStructures (scope_in situation).structures }
    requires two { length all.now ≡ 2 }
    ensures { IfOk result (λ j. judged_operand j ≡ allocation_call only_first (scope_in situation.entry) site (judged_shape shape) Calloc (expression_row (map expression_of all.now))) }
{
    let number = &all[0];
    let last = &all[1];
    let size = judge_size(alloc, situation.scope, last)?;
    match size {
        Some(element) => {
            let elements = Elements {
                site,
                function: Library::Calloc,
                otherwise: Problem {
                    code: SubsetCode::TypesDiffer,
                    at: number.at,
                },
                size_at: last.at,
            };
            let count = match judge_value(alloc, situation, number) {
                Ok(count) => count,
                Err(trouble) => return stopped_after_two(shape, element, trouble),
            };
            let seen = counted_elements(
                alloc,
                &situation.scope.types,
                elements,
                shape,
                element,
                count,
            )?;
            Ok(seen)
        }
        None => {
            let seen = other_memory(alloc, situation, all, site, Library::Calloc, shape)?;
            Ok(seen)
        }
    }
}

/// What is found in a call of `malloc` with one argument under a cast.
#[cycle(judge)]
fn judge_bytes(
    alloc: Global,
    situation: Situation<'_, '_>,
    all: &[Expr<'_>],
    site: Site,
    shape: Result<Shape, Option<Problem>>,
) -> Result<Judged<Operand>, AllocError>
    requires structures { AreWholeStructures (scope_in situation).structures }
    requires one { length all.now ≡ 1 }
    ensures { IfOk result (λ j. judged_operand j ≡ allocation_call only_first (scope_in situation.entry) site (judged_shape shape) Malloc (expression_row (map expression_of all.now))) }
{
    let e = &all[0];
    let bytes = judge_number(alloc, situation, e)?;
    match bytes {
        Bytes::Size(element) => {
            let seen = one_element(alloc, &situation.scope.types, site, shape, e.at, element)?;
            Ok(seen)
        }
        Bytes::Sizes(left, right) => {
            let seen = two_sizes(alloc, &situation.scope.types, site, shape, left, right)?;
            Ok(seen)
        }
        Bytes::Elements(size_at, element, count) => {
            let elements = Elements {
                site,
                function: Library::Malloc,
                otherwise: Problem {
                    code: SubsetCode::OperandTypes,
                    at: e.at,
                },
                size_at,
            };
            let seen = counted_elements(
                alloc,
                &situation.scope.types,
                elements,
                shape,
                element,
                count,
            )?;
            Ok(seen)
        }
        Bytes::Other => {
            let seen = other_memory(alloc, situation, all, site, Library::Malloc, shape)?;
            Ok(seen)
        }
    }
}

/// What is found in a number of bytes, by its form.
#[cycle(judge)]
fn judge_number(
    alloc: Global,
    situation: Situation<'_, '_>,
    e: &Expr<'_>,
) -> Result<Bytes, AllocError>
    requires { AreWholeStructures (scope_in situation).structures }
    ensures { IfOk result (λ b. plain_bytes b ≡ bytes_in only_first (scope_in situation.entry) (expression_of e.now)) }
{
    match &e.form {
        Form::SizeofType(t) => {
            let element = judge_type(alloc, situation.scope, t)?;
            Ok(Bytes::Size(element))
        }
        Form::Binary(sign, a, b) => {
            let a = &**a;
            let b = &**b;
            if is_star(*sign) {
                let left = judge_size(alloc, situation.scope, a)?;
                let right = match judge_size(alloc, situation.scope, b) {
                    Ok(right) => right,
                    Err(trouble) => return stopped(left, trouble),
                };
                match (left, right) {
                    (Some(left), Some(right)) => {
                        let left = SizeOf {
                            at: a.at,
                            found: left,
                        };
                        let right = SizeOf {
                            at: b.at,
                            found: right,
                        };
                        Ok(Bytes::Sizes(left, right))
                    }
                    (None, Some(element)) => {
                        match judge_value(alloc, situation, a) {
                            Ok(count) => Ok(Bytes::Elements(b.at, element, count)),
                            Err(trouble) => stopped(element, trouble),
                        }
                    }
                    (Some(element), None) => {
                        match judge_value(alloc, situation, b) {
                            Ok(count) => Ok(Bytes::Elements(a.at, element, count)),
                            Err(trouble) => stopped(element, trouble),
                        }
                    }
                    (None, None) => Ok(Bytes::Other),
                }
            } else {
                Ok(Bytes::Other)
            }
        }
        _ => Ok(Bytes::Other),
    }
}

/// What is found in the type of a `sizeof`, where the tree is one.
#[cycle(judge)]
fn judge_size(
    alloc: Global,
    scope: &Scope<'_>,
    e: &Expr<'_>,
) -> Result<Option<Result<Shape, Option<Problem>>>, AllocError>
    requires { AreWholeStructures (plain_scope scope.now).structures }
    ensures { IfOk result (λ o. option_map judged_shape o ≡ judge_size only_first (plain_scope scope.now) (expression_of e.now)) }
{
    match &e.form {
        Form::SizeofType(t) => {
            let shape = judge_type(alloc, scope, t)?;
            Ok(Some(shape))
        }
        _ => Ok(None),
    }
}
