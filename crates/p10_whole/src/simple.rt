//! Whether statements that have no statements in them are whole, and declarations (C99 6.7, 6.8.3, 6.8.6).

ghost use Rattle.std.specs.Prelude.{◌≡◌, ℕ, List, Some, IfOk, option_map};
ghost use Rattle.p10_core.specs.Typed.{declare};
ghost use Rattle.p10_core.specs.Views.{plain_statement, plain_statement_form, plain_initializer, plain_object, plain_value, plain_labels};
ghost use Rattle.p10_core.specs.WholePrograms.{DeclaresStatic, IsMaybeTest, IsTest, Switches, around};
ghost use Rattle.p10_whole.specs.private.Regions.{region_in, IsSimple, PassesForm};
ghost use Rattle.p10_whole.specs.private.Shows.{Shows};

use crate::around::{object_at, variable_at};
use crate::assignments::{copies, is_test, returns, sets, updates};
use crate::context::Context;
use crate::initializers::is_whole_initializer;
use crate::switches::switches;
use crate::values::is_whole_value;
use p10_core::{Global as StaticObject, Initializer, Labels, Stmt, StmtForm, Value};
use std::alloc::{AllocError, Global};

/// Whether a form of statement has no statements in it, declares no variable, and is whole.
pub(crate) fn is_simple(context: &Context<'_, '_>, scope: &[u32], form: &StmtForm) -> bool
    ensures { Shows result (IsSimple context.now scope.now (plain_statement_form form.now)) }
{
    let around = context.around(scope);
    match form {
        StmtForm::Set(place, value) => sets(&around, place, value),
        StmtForm::Update(kind, op, t, place, value) => {
            updates(&around, *kind, *op, t, place, value)
        }
        StmtForm::Copy(target, source) => copies(&around, target, source),
        StmtForm::Value(value) => is_whole_value(&around, value),
        StmtForm::Assert(_, value) => is_test(&around, value),
        StmtForm::Static(number) => declares_static(context, *number),
        StmtForm::Break => context.in_loop | context.in_switch,
        StmtForm::Continue => context.in_loop,
        StmtForm::Return(_, value) => returns(&around, &context.function.result, value),
        StmtForm::Empty => true,
        StmtForm::Mark(_) => context.number == context.program.main as usize,
        StmtForm::Declare(_, _) | StmtForm::Block(_) | StmtForm::If(_, _, _) => false,
        StmtForm::Loop(_, _, _, _, _) | StmtForm::Switch(_, _, _, _) => false,
    }
}

/// Whether a value may be tested.
pub(crate) fn tests(context: &Context<'_, '_>, scope: &[u32], v: &Value) -> bool
    ensures { Shows result (IsTest (around (region_in context.now scope.now)) (plain_value v.now)) }
{
    is_test(&context.around(scope), v)
}

/// Whether a value may be tested, if there is one.
pub(crate) fn maybe_tests(context: &Context<'_, '_>, scope: &[u32], v: &Option<Value>) -> bool
    ensures { Shows result (IsMaybeTest (around (region_in context.now scope.now)) (option_map plain_value v.now)) }
{
    match v {
        None => true,
        Some(v) => tests(context, scope, v),
    }
}

/// Whether a `switch` is whole, its body's parts aside.
pub(crate) fn selects(
    alloc: Global,
    context: &Context<'_, '_>,
    scope: &[u32],
    value: &Value,
    labels: &Labels,
    body: &Stmt,
) -> Result<bool, AllocError>
    ensures { IfOk result (λ b. Shows b (Switches (around (region_in context.now scope.now)) (plain_value value.now) (plain_labels labels.now) (plain_statement body.now))) }
{
    switches(alloc, &context.around(scope), value, labels, body)
}

/// Whether the object of static lifetime with a number belongs to the function.
fn declares_static(context: &Context<'_, '_>, number: u32) -> bool
    ensures { (numbers : List ℕ) → Shows result (DeclaresStatic (region_in context.now numbers) number) }
{
    match object_at(context.program, number) {
        Some(object) => has_owner(object, context.number),
        None => false,
    }
}

/// Whether an object belongs to the function with a number.
fn has_owner(object: &StaticObject<'_>, number: usize) -> bool
    ensures { Shows result ((plain_object object.now).owner ≡ Some number) }
{
    match object.owner {
        Some(owner) => owner as usize == number,
        None => false,
    }
}

/// Whether the declaration of a variable is whole, which is in scope from there on.
pub(crate) fn declares(
    context: &Context<'_, '_>,
    scope: &mut Vec<u32>,
    number: u32,
    initial: &Initializer,
) -> Result<bool, AllocError>
    ensures { IfOk result (λ b. Shows b (PassesForm context.now scope.old.items (declare number (plain_initializer initial.now)) scope.new.items)) }
{
    match variable_at(context.function.vars.as_slice(), number) {
        Some(variable) => {
            scope.push(number)?;
            let around = context.around(scope.as_slice());
            let no_parameter = context.function.params <= number;
            Ok(no_parameter & is_whole_initializer(&around, &variable.ty, initial))
        }
        None => Ok(false),
    }
}
