//! What whole expressions become as statements (C99 6.8.3).

ghost use Rattle.std.specs.Prelude.{◌≡◌, IfOk, map, option_map};
ghost use Rattle.p10_core.specs.declared.typed.Library.TheVariants.{Assert};
ghost use Rattle.p10_core.specs.Views.{plain_values, plain_statement, plain_statement_form};
ghost use Rattle.p10_core.specs.WholePrograms.{AreWholeStructures};
ghost use Rattle.p10_syn.specs.Trees.{expression_row};
ghost use Rattle.p10_syn.specs.Built.{expression_of};
ghost use Rattle.p10_elabx.specs.First.{only_first, lift, on};
ghost use Rattle.p10_elabx.specs.Built.{plain_listed, ruled_form};
ghost use Rattle.p10_elabx.specs.Calls.{call_judged, of_library};
ghost use Rattle.p10_elabx.specs.Judging.{called_name};
ghost use Rattle.p10_elabx.specs.PlainScopes.{plain_scope};
ghost use Rattle.p10_elabd.specs.Standing.{noted};
ghost use Rattle.p10_elabd.specs.Views.{plain_standing, told};
ghost use Rattle.p10_elabs.specs.Expressions.{assertion, assert_called, assert_found, form_found, statement_with};
ghost use Rattle.p10_elabs.specs.private.Forming.{asserted, value_form, assigned_form, stepped_form, call_form, form_by};

use crate::both::unless_refused;
use p10_base::At;
use p10_core::{Library, Stmt, StmtForm, Value};
use p10_elabd::Standing;
use p10_elabx::{
    Callee, Listed, Problem, Scope, any_value, assignment_of, by_sign, call_judged, callee_of,
    judge, judge_arguments, judge_target, judge_value, step_judged, step_of, wanted_of,
};
use p10_syn::{Expr, Form, Sign};
use std::alloc::{AllocError, Global};

/// `assert` with its arguments, of which there is one.
fn asserted(at: At, values: Vec<Value>) -> Result<StmtForm, Option<Problem>>
    ensures { ruled_form result ≡ asserted at (plain_values values.items) }
{
    let count = values.len();
    if count == 1 {
        let mut rest = values;
        let v = rest.remove(0);
        return Ok(StmtForm::Assert(at, v));
    }
    Err(None)
}

/// A call of `assert` whose arguments are judged. They aren't needed for what is found in the call, and are put in after.
fn assert_judged(
    alloc: Global,
    at: At,
    name_at: At,
    count: usize,
    list: Listed,
) -> Result<Result<StmtForm, Option<Problem>>, AllocError>
    ensures { IfOk result (λ r. lift (ruled_form r) ≡ on (call_judged only_first at name_at (of_library Assert) count (plain_listed list)).found assertion) }
{
    let Listed {
        found,
        acts,
        reads,
        unordered,
    } = list;
    let callee = Callee::Library(Library::Assert);
    match found {
        Ok(values) => {
            let without = Listed {
                found: Ok(Vec::new(alloc)),
                acts,
                reads,
                unordered,
            };
            let seen = call_judged(alloc, at, name_at, &callee, count, without)?;
            Ok(unless_refused(seen.found, asserted(at, values)))
        }
        Err(r) => {
            let refused = Listed {
                found: Err(r),
                acts,
                reads,
                unordered,
            };
            let seen = call_judged(alloc, at, name_at, &callee, count, refused)?;
            Ok(unless_refused(seen.found, Err(None)))
        }
    }
}

/// A call of `assert` as a whole statement.
fn assert_found(
    alloc: Global,
    scope: &Scope<'_>,
    at: At,
    name_at: At,
    all: &[Expr<'_>],
) -> Result<Result<StmtForm, Option<Problem>>, AllocError>
    requires { AreWholeStructures (plain_scope scope.now).structures }
    ensures { IfOk result (λ r. lift (ruled_form r) ≡ assert_found only_first (plain_scope scope.now) at name_at (expression_row (map expression_of all.now))) }
{
    let callee = Callee::Library(Library::Assert);
    let count = all.len();
    let wants = wanted_of(&callee, count);
    let list = judge_arguments(alloc, scope, all, wants)?;
    let found = assert_judged(alloc, at, name_at, count, list)?;
    Ok(found)
}

/// Where the name of `assert` stands, if a tree is that name.
fn assert_called(scope: &Scope<'_>, f: &Expr<'_>) -> Option<At>
    ensures { result ≡ assert_called (plain_scope scope.now) (called_name (expression_of f.now)) }
{
    match &f.form {
        Form::Name(name) => match callee_of(scope.named(name.text), name.text) {
            Callee::Library(Library::Assert) => Some(name.at),
            _ => None,
        },
        _ => None,
    }
}

/// A value that isn't used, void or not.
#[tactic(auto, unfolding(crate::specs::private::Forming::value_form))]
fn value_form(
    alloc: Global,
    scope: &Scope<'_>,
    e: &Expr<'_>,
) -> Result<Result<StmtForm, Option<Problem>>, AllocError>
    requires { AreWholeStructures (plain_scope scope.now).structures }
    ensures { IfOk result (λ r. lift (ruled_form r) ≡ value_form only_first (plain_scope scope.now) (expression_of e.now)) }
{
    let seen = judge(alloc, scope, e)?;
    let value = any_value(alloc, &scope.types, seen)?;
    match value.found {
        Ok(v) => Ok(Ok(StmtForm::Value(v))),
        Err(problem) => Ok(Err(problem)),
    }
}

/// An assignment.
fn assigned_form(
    alloc: Global,
    scope: &Scope<'_>,
    at: At,
    sign: Sign,
    a: &Expr<'_>,
    b: &Expr<'_>,
) -> Result<Result<StmtForm, Option<Problem>>, AllocError>
    requires { AreWholeStructures (plain_scope scope.now).structures }
    ensures { IfOk result (λ r. lift (ruled_form r) ≡ assigned_form only_first (plain_scope scope.now) at sign (expression_of a.now) (expression_of b.now)) }
{
    let target = judge_target(alloc, scope, a)?;
    let value = judge_value(alloc, scope, b)?;
    let op = assignment_of(sign);
    let form = by_sign(alloc, &scope.types, at, op, target, value)?;
    Ok(form.found)
}

/// A step.
fn stepped_form(
    alloc: Global,
    scope: &Scope<'_>,
    at: At,
    sign: Sign,
    e: &Expr<'_>,
) -> Result<Result<StmtForm, Option<Problem>>, AllocError>
    requires { AreWholeStructures (plain_scope scope.now).structures }
    ensures { IfOk result (λ r. lift (ruled_form r) ≡ stepped_form only_first (plain_scope scope.now) at sign (expression_of e.now)) }
{
    let target = judge_target(alloc, scope, e)?;
    let op = step_of(sign);
    let form = step_judged(alloc, &scope.types, at, op, target)?;
    Ok(form.found)
}

/// A call, with the whole expression and what is called: `assert` may stand there.
fn call_form(
    alloc: Global,
    scope: &Scope<'_>,
    at: At,
    all: &[Expr<'_>],
    e: &Expr<'_>,
    f: &Expr<'_>,
) -> Result<Result<StmtForm, Option<Problem>>, AllocError>
    requires { AreWholeStructures (plain_scope scope.now).structures }
    ensures { IfOk result (λ r. lift (ruled_form r) ≡ call_form only_first (plain_scope scope.now) at (expression_row (map expression_of all.now)) (expression_of e.now) (expression_of f.now)) }
{
    match assert_called(scope, f) {
        Some(name_at) => {
            let found = assert_found(alloc, scope, at, name_at, all)?;
            Ok(found)
        }
        None => {
            let found = value_form(alloc, scope, e)?;
            Ok(found)
        }
    }
}

/// What an expression becomes by its form.
fn form_by(
    alloc: Global,
    scope: &Scope<'_>,
    e: &Expr<'_>,
) -> Result<Result<StmtForm, Option<Problem>>, AllocError>
    requires { AreWholeStructures (plain_scope scope.now).structures }
    ensures { IfOk result (λ r. lift (ruled_form r) ≡ form_by only_first (plain_scope scope.now) (expression_of e.now)) }
{
    match &e.form {
        Form::Assign(sign, a, b) => {
            let found = assigned_form(alloc, scope, e.at, *sign, a, b)?;
            Ok(found)
        }
        Form::Step(_, sign, a) => {
            let found = stepped_form(alloc, scope, e.at, *sign, a)?;
            Ok(found)
        }
        Form::Call(f, all) => {
            let found = call_form(alloc, scope, e.at, all, e, f)?;
            Ok(found)
        }
        _ => {
            let found = value_form(alloc, scope, e)?;
            Ok(found)
        }
    }
}

/// What a whole expression becomes: an assignment or a step, `assert`, or a value.
pub(crate) fn form_found(
    alloc: Global,
    scope: &Scope<'_>,
    e: &Expr<'_>,
) -> Result<Result<StmtForm, Option<Problem>>, AllocError>
    requires { AreWholeStructures (plain_scope scope.now).structures }
    ensures { IfOk result (λ r. lift (ruled_form r) ≡ form_found only_first (plain_scope scope.now) (expression_of e.now)) }
{
    let found = form_by(alloc, scope, e)?;
    Ok(found)
}

/// What a whole expression becomes, of which the problem is noted where it is refused.
pub(crate) fn noted_form(
    found: Result<StmtForm, Option<Problem>>,
    standing: &mut Standing<'_>,
) -> Option<StmtForm>
    ensures { told (option_map plain_statement_form result) standing.new ≡ noted only_first (lift (ruled_form found)) (plain_standing standing.old) }
{
    match found {
        Ok(form) => Some(form),
        Err(problem) => {
            standing.note(problem);
            None
        }
    }
}

/// A form as a statement at a tree.
pub(crate) fn statement_with(at: At, form: Option<StmtForm>) -> Option<Stmt>
    ensures { option_map plain_statement result ≡ statement_with at (option_map plain_statement_form form) }
{
    match form {
        None => None,
        Some(form) => Some(Stmt { at, form }),
    }
}
