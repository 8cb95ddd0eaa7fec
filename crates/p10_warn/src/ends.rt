//! Whether the end of a statement can be reached.

ghost use Rattle.std.specs.Prelude.{◌≡◌, option_map};
ghost use Rattle.p10_core.specs.Views.{plain_value, plain_statement, plain_statements};
ghost use Rattle.p10_core.specs.WholePrograms.{gives_other_than_zero, is_true_test};
ghost use Rattle.p10_warn.specs.Ends.{has_break, have_break, is_endless, reaches_end, reach_end};

use p10_base::At;
use p10_core::{Stmt, StmtForm, Value, fold, inconstant_part};

/// Whether the end of each of the statements can be reached.
#[cycle(ends)]
pub fn reach_end(all: &[Stmt]) -> bool
    ensures { result ≡ reach_end (plain_statements all.now) }
{
    for statement in all {
        if !reaches_end(statement) {
            return false;
        }
    }
    true
}

/// Whether the end of a statement can be reached.
#[cycle(ends)]
fn reaches_end(statement: &Stmt) -> bool
    ensures { result ≡ reaches_end (plain_statement statement.now) }
{
    match &statement.form {
        StmtForm::Break | StmtForm::Continue | StmtForm::Return(_, _) => false,
        StmtForm::Block(items) => reach_end(items.as_slice()),
        StmtForm::If(_, then, Some(otherwise)) => reaches_end(then) | reaches_end(otherwise),
        StmtForm::Loop(_, _, test, _, body) => !is_endless(test) || has_break(body),
        StmtForm::If(_, _, None)
        | StmtForm::Switch(_, _, _, _)
        | StmtForm::Set(_, _)
        | StmtForm::Update(_, _, _, _, _)
        | StmtForm::Copy(_, _)
        | StmtForm::Value(_)
        | StmtForm::Assert(_, _)
        | StmtForm::Declare(_, _)
        | StmtForm::Static(_)
        | StmtForm::Empty
        | StmtForm::Mark(_) => true,
    }
}

/// Whether a statement has a `break` that leaves what stands round it.
#[cycle(breaks)]
fn has_break(statement: &Stmt) -> bool
    ensures { result ≡ has_break (plain_statement statement.now) }
{
    match &statement.form {
        StmtForm::Break => true,
        StmtForm::Block(items) => have_break(items.as_slice()),
        StmtForm::If(_, then, None) => has_break(then),
        StmtForm::If(_, then, Some(otherwise)) => has_break(then) | has_break(otherwise),
        StmtForm::Loop(_, _, _, _, _)
        | StmtForm::Switch(_, _, _, _)
        | StmtForm::Set(_, _)
        | StmtForm::Update(_, _, _, _, _)
        | StmtForm::Copy(_, _)
        | StmtForm::Value(_)
        | StmtForm::Assert(_, _)
        | StmtForm::Declare(_, _)
        | StmtForm::Static(_)
        | StmtForm::Continue
        | StmtForm::Return(_, _)
        | StmtForm::Empty
        | StmtForm::Mark(_) => false,
    }
}

/// Whether one of the statements has one.
#[cycle(breaks)]
fn have_break(all: &[Stmt]) -> bool
    ensures { result ≡ have_break (plain_statements all.now) }
{
    for statement in all {
        if has_break(statement) {
            return true;
        }
    }
    false
}

/// Whether a loop has no condition, or a constant one other than 0.
fn is_endless(test: &Option<Value>) -> bool
    ensures { result ≡ is_endless (option_map plain_value test.now) }
{
    match test {
        Some(value) => is_true_test(value),
        None => true,
    }
}

/// Whether a condition is an integer constant expression other than 0.
fn is_true_test(value: &Value) -> bool
    ensures { result ≡ is_true_test (plain_value value.now) }
{
    value.ty.is_integer()
        && (inconstant_part(value).is_none() && gives_other_than_zero(fold(value)))
}

/// Whether a constant gives a number other than 0.
fn gives_other_than_zero(found: Result<i128, At>) -> bool
    ensures { result ≡ gives_other_than_zero found }
{
    match found {
        Ok(number) => number != 0,
        Err(_) => false,
    }
}
