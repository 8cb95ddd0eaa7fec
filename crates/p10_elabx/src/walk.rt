//! What is found in expressions and type names: the walk over a tree. Each part is judged once.

ghost use Rattle.std.specs.Prelude.{◌≡◌, IfOk, map};
ghost use Rattle.p10_core.specs.WholePrograms.{AreWholeStructures};
ghost use Rattle.p10_syn.specs.Trees.{expression_row, parameter_row};
ghost use Rattle.p10_syn.specs.Built.{identifier_of, expression_of, kind_of, declarator_of, parameter_of};
ghost use Rattle.p10_elabx.specs.First.{only_first, lift};
ghost use Rattle.p10_elabx.specs.Calls.{no_arguments};
ghost use Rattle.p10_elabx.specs.PlainScopes.{plain_scope, scope_in};
ghost use Rattle.p10_elabx.specs.TypeNames.{no_parameters};
ghost use Rattle.p10_elabx.specs.Judging.{value_in, target_in, judge, judge_arguments, judge_type, judge_declarator, judge_parameters};
ghost use Rattle.p10_elabx.specs.private.Walking.{named_call, one_parameter};
ghost use Rattle.p10_elabx.specs.Built.{plain_wants, plain_listed, judged_operand, judged_value, judged_target, judged_shape, ruled_types, ruled_named};

use crate::arrays::{array_judged, open_array_judged};
use crate::callee::Wants;
use crate::calls::{
    argument_judged, call_judged, callee_of, no_arguments, operand_call, other_call, wanted_at,
    wanted_of, with_argument,
};
use crate::casts::{comma_judged, type_size_judged};
use crate::declarators::{declarator_place, name_place, pointer_judged};
use crate::forms::{
    arrow_judged, binary_judged, conditional_judged, index_judged, member_judged, size_judged,
    unary_by_sign,
};
use crate::judged::{Judged, Listed, target_if_evaluated, value_if_evaluated};
use crate::literals::{character_found, number_found, strings_found};
use crate::memory::judge_cast;
use crate::names::{called_name, name_found};
use crate::operand::{Operand, PlaceKind};
use crate::parameters::{
    FunctionSite, function_judged, is_alone, lacks_prototype, parameter_judged, with_parameter,
};
use crate::parts::{stopped, stopped_after_two};
use crate::problem::Problem;
use crate::scope::Scope;
use crate::shape::{Made, Shape};
use crate::signs::{assignment_of, operation_of, step_of};
use crate::situation::Situation;
use crate::targets::{by_sign, nested, step_judged, target_judged};
use crate::trees::{may_be_place, plainly};
use crate::type_names::specifiers_judged;
use crate::values::as_value;
use p10_base::At;
use p10_core::{CType, Place, Value};
use p10_syn::{Declarator, Expr, Form, Identifier, Parameter, TypeName};
use std::alloc::{AllocError, Global};

/// What is found in the expression `e`, in a scope where it is evaluated or not: an operand, or the first row that holds in it, or
/// neither.
#[cycle(judge)]
pub fn judge(
    alloc: Global,
    situation: Situation<'_, '_>,
    e: &Expr<'_>,
) -> Result<Judged<Operand>, AllocError>
    requires { AreWholeStructures (scope_in situation).structures }
    ensures { IfOk result (λ j. judged_operand j ≡ judge only_first (scope_in situation.entry) (expression_of e.now)) }
{
    let at = e.at;
    match &e.form {
        Form::Name(name) => {
            let found = name_found(
                alloc,
                at,
                name.at,
                name.text,
                situation.scope.named(name.text),
            )?;
            Ok(plainly(found))
        }
        Form::Number(text) => Ok(plainly(number_found(at, text))),
        Form::Char(text) => Ok(plainly(character_found(at, text))),
        Form::Str(texts) => {
            let found = strings_found(alloc, at, texts)?;
            Ok(plainly(found))
        }
        Form::Unary(sign, a) => {
            let operand = judge(alloc, situation, a)?;
            unary_by_sign(
                alloc,
                &situation.scope.types,
                at,
                *sign,
                may_be_place(a),
                operand,
            )
        }
        Form::Step(_, sign, a) => {
            let target = judge_target(alloc, situation, a)?;
            let step = step_judged(alloc, &situation.scope.types, at, step_of(*sign), target)?;
            Ok(nested(at, step))
        }
        Form::Binary(sign, a, b) => {
            let left = judge_value(alloc, situation, a)?;
            match judge_value(alloc, situation, b) {
                Ok(right) => binary_judged(
                    alloc,
                    &situation.scope.types,
                    at,
                    operation_of(*sign),
                    left,
                    right,
                ),
                Err(trouble) => stopped(left, trouble),
            }
        }
        Form::Assign(sign, a, b) => {
            let target = judge_target(alloc, situation, a)?;
            match judge_value(alloc, situation, b) {
                Ok(value) => {
                    let form = by_sign(
                        alloc,
                        &situation.scope.types,
                        at,
                        assignment_of(*sign),
                        target,
                        value,
                    )?;
                    Ok(nested(at, form))
                }
                Err(trouble) => stopped(target, trouble),
            }
        }
        Form::Cond(c, a, b) => {
            let test = judge_value(alloc, situation, c)?;
            let left = match judge_value(alloc, situation, a) {
                Ok(left) => left,
                Err(trouble) => return stopped(test, trouble),
            };
            match judge_value(alloc, situation, b) {
                Ok(right) => conditional_judged(alloc, at, test, left, right),
                Err(trouble) => stopped_after_two(test, left, trouble),
            }
        }
        Form::Call(f, all) => match called_name(f) {
            Some(name) => {
                let seen = judge_call(alloc, situation, all, at, name)?;
                Ok(seen)
            }
            None => {
                let called = judge(alloc, situation, f)?;
                match judge_arguments(alloc, situation, all, Wants::Nothing) {
                    Ok(list) => Ok(other_call(at, called, list)),
                    Err(trouble) => stopped(called, trouble),
                }
            }
        },
        Form::Index(a, b) => {
            let base = judge_value(alloc, situation, a)?;
            match judge_value(alloc, situation, b) {
                Ok(index) => index_judged(alloc, &situation.scope.types, at, base, index),
                Err(trouble) => stopped(base, trouble),
            }
        }
        Form::Member(a, name) => {
            let whole = judge(alloc, situation, a)?;
            member_judged(alloc, &situation.scope.types, at, name.text, whole)
        }
        Form::Arrow(a, name) => {
            let pointer = judge_value(alloc, situation, a)?;
            arrow_judged(alloc, &situation.scope.types, at, name.text, pointer)
        }
        Form::Cast(t, a) => {
            let shape = judge_type(alloc, situation.scope, t)?;
            let seen = judge_cast(alloc, situation, a, at, shape)?;
            Ok(seen)
        }
        Form::SizeofExpr(a) => {
            let operand = judge(alloc, situation.unevaluated(), a)?;
            Ok(size_judged(&situation.scope.types, at, operand))
        }
        Form::SizeofType(t) => {
            let shape = judge_type(alloc, situation.scope, t)?;
            Ok(type_size_judged(&situation.scope.types, at, shape))
        }
        Form::Comma(all) => {
            let list = judge_arguments(alloc, situation, all, Wants::Nothing)?;
            Ok(comma_judged(at, list))
        }
    }
}

/// What is found in the expression `e` where a value is needed: the value, or the first row that holds, or neither.
#[cycle(judge)]
pub fn judge_value(
    alloc: Global,
    situation: Situation<'_, '_>,
    e: &Expr<'_>,
) -> Result<Judged<Value>, AllocError>
    requires { AreWholeStructures (scope_in situation).structures }
    ensures { IfOk result (λ j. judged_value j ≡ value_in (scope_in situation.entry) (judge only_first (scope_in situation.entry) (expression_of e.now))) }
{
    let seen = judge(alloc, situation, e)?;
    let value = as_value(alloc, &situation.scope.types, seen)?;
    Ok(value_if_evaluated(situation.evaluated, value))
}

/// What is found in the target `e` of an assignment or a step: the place and its kind, or the first row that holds, or neither.
#[cycle(judge)]
pub fn judge_target(
    alloc: Global,
    situation: Situation<'_, '_>,
    e: &Expr<'_>,
) -> Result<Judged<(PlaceKind, Place)>, AllocError>
    requires { AreWholeStructures (scope_in situation).structures }
    ensures { IfOk result (λ j. judged_target j ≡ target_in only_first (scope_in situation.entry) (expression_of e.now) (judge only_first (scope_in situation.entry) (expression_of e.now))) }
{
    let seen = judge(alloc, situation, e)?;
    let target = target_judged(&situation.scope.types, e.at, may_be_place(e), seen);
    Ok(target_if_evaluated(situation.evaluated, target))
}

/// What is found in the arguments `all`, or in operands of the comma operator, from the left; `wants` says what is asked of each.
#[cycle(judge)]
pub fn judge_arguments(
    alloc: Global,
    situation: Situation<'_, '_>,
    all: &[Expr<'_>],
    wants: Wants<'_>,
) -> Result<Listed, AllocError>
    requires { AreWholeStructures (scope_in situation).structures }
    ensures { IfOk result (λ k. plain_listed k ≡ judge_arguments only_first (scope_in situation.entry) (plain_wants wants.entry) 0 no_arguments (expression_row (map expression_of all.now))) }
{
    let mut list = no_arguments(alloc);
    for (i, e) in all.iter().enumerate() {
        let value = judge_value(alloc, situation, e)?;
        let argument = argument_judged(alloc, wanted_at(wants, i), value)?;
        list = with_argument(list, argument)?;
    }
    Ok(list)
}

/// What is found in a call of a name, where an operand is needed.
#[cycle(judge)]
fn judge_call(
    alloc: Global,
    situation: Situation<'_, '_>,
    all: &[Expr<'_>],
    at: At,
    name: Identifier<'_>,
) -> Result<Judged<Operand>, AllocError>
    requires { AreWholeStructures (scope_in situation).structures }
    ensures { IfOk result (λ j. judged_operand j ≡ named_call only_first (scope_in situation.entry) at (identifier_of name.entry) (expression_row (map expression_of all.now))) }
{
    let callee = callee_of(situation.scope.named(name.text), name.text);
    let count = all.len();
    let list = judge_arguments(alloc, situation, all, wanted_of(&callee, count))?;
    let seen = call_judged(alloc, at, name.at, &callee, count, list)?;
    Ok(operand_call(at, &callee, seen))
}

/// The type that a type name names in a scope, or the first row that holds in it, or neither (C99 6.7.6).
///
/// # Errors
///
/// Out of memory.
#[cycle(judge)]
pub fn judge_type(
    alloc: Global,
    scope: &Scope<'_>,
    t: &TypeName<'_>,
) -> Result<Result<Shape, Option<Problem>>, AllocError>
    requires { AreWholeStructures (plain_scope scope.now).structures }
    ensures { IfOk result (λ r. judged_shape r ≡ judge_type only_first (plain_scope scope.now) (kind_of t.now)) }
{
    let specified = specifiers_judged(alloc, scope, t.at, &t.specs)?;
    let name_at = declarator_place(&t.declarator);
    judge_declarator(
        alloc,
        scope,
        &t.declarator,
        name_at,
        Made::Nothing,
        specified,
    )
}

/// What the declarator `d` makes of the type `shape` in a scope, if that wasn't refused (C99 6.7.5, 6.7.6). `name_at` is where an
/// incomplete type is refused, and `made` what the declarator round this one makes.
///
/// # Errors
///
/// Out of memory.
#[cycle(judge)]
pub fn judge_declarator(
    alloc: Global,
    scope: &Scope<'_>,
    d: &Declarator<'_>,
    name_at: At,
    made: Made,
    shape: Result<Shape, Option<Problem>>,
) -> Result<Result<Shape, Option<Problem>>, AllocError>
    requires { AreWholeStructures (plain_scope scope.now).structures }
    ensures { IfOk result (λ r. judged_shape r ≡ judge_declarator only_first (plain_scope scope.now) name_at made (judged_shape shape) (declarator_of d.now)) }
{
    match d {
        Declarator::Named(_) | Declarator::Unnamed(_) => Ok(shape),
        Declarator::Pointer(at, qualifiers, inner) => {
            let shape = pointer_judged(alloc, *at, name_at, qualifiers, made, shape)?;
            judge_declarator(alloc, scope, inner, name_at, Made::Pointer, shape)
        }
        Declarator::Parenthesised(_, inner) => {
            judge_declarator(alloc, scope, inner, name_at, made, shape)
        }
        Declarator::Array(_, inner, _, None) => {
            let shape = open_array_judged(&scope.types, name_at, made, shape);
            judge_declarator(alloc, scope, inner, name_at, Made::OpenArray, shape)
        }
        Declarator::Array(_, inner, _, Some(length)) => {
            let evaluated = Situation {
                scope,
                evaluated: true,
            };
            let length = match judge_value(alloc, evaluated, length) {
                Ok(length) => length,
                Err(trouble) => return stopped(shape, trouble),
            };
            let shape = array_judged(alloc, &scope.types, name_at, made, length, shape)?;
            judge_declarator(alloc, scope, inner, name_at, Made::Array, shape)
        }
        Declarator::Function(at, inner, parentheses, parameters, dots) => {
            let site = FunctionSite {
                at: *at,
                name_at,
                parentheses: *parentheses,
                lacking: lacks_prototype(parameters, *dots),
                made,
            };
            let types = match judge_parameters(alloc, scope, parameters, is_alone(parameters)) {
                Ok(types) => types,
                Err(trouble) => return stopped(shape, trouble),
            };
            let shape = function_judged(site, types, shape);
            let inside = judge_declarator(alloc, scope, inner, name_at, Made::Function, shape)?;
            Ok(inside)
        }
    }
}

/// The types of the parameters of a function, or the first row that holds in them, or neither (C99 6.7.5.3). `alone` says that there is
/// one parameter, which names nothing: its `void` then says that there are none.
///
/// # Errors
///
/// Out of memory.
#[cycle(judge)]
pub fn judge_parameters(
    alloc: Global,
    scope: &Scope<'_>,
    parameters: &[Parameter<'_>],
    alone: bool,
) -> Result<Result<Vec<CType>, Option<Problem>>, AllocError>
    requires { AreWholeStructures (plain_scope scope.now).structures }
    ensures { IfOk result (λ r. lift (ruled_types r) ≡ judge_parameters only_first (plain_scope scope.now) alone no_parameters (parameter_row (map parameter_of parameters.now))) }
{
    let mut types = Ok(Vec::new(alloc));
    for parameter in parameters {
        let one = judge_parameter(alloc, scope, parameter, alone)?;
        types = with_parameter(types, one)?;
    }
    Ok(types)
}

/// The type of a parameter.
#[cycle(judge)]
fn judge_parameter(
    alloc: Global,
    scope: &Scope<'_>,
    parameter: &Parameter<'_>,
    alone: bool,
) -> Result<Result<Option<CType>, Option<Problem>>, AllocError>
    requires { AreWholeStructures (plain_scope scope.now).structures }
    ensures { IfOk result (λ r. lift (ruled_named r) ≡ one_parameter only_first (plain_scope scope.now) alone (parameter_of parameter.now)) }
{
    let specified = specifiers_judged(alloc, scope, parameter.at, &parameter.specs)?;
    let name_at = name_place(parameter.at, &parameter.declarator);
    let shape = judge_declarator(
        alloc,
        scope,
        &parameter.declarator,
        name_at,
        Made::Nothing,
        specified,
    )?;
    parameter_judged(alloc, alone, parameter.at, &parameter.declarator, shape)
}
