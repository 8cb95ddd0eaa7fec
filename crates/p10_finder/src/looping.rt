//! Whether statements have loops: where they have none, none is looked for.

ghost use Rattle.std.specs.Prelude.{◌≡◌};
ghost use Rattle.p10_core.specs.Views.{plain_statement, plain_statements};
ghost use Rattle.p10_finder.specs.private.Looping.{has_loop, have_loop};

use p10_core::{Stmt, StmtForm};

/// Whether a statement is a loop, or one stands in it.
#[cycle(looping)]
pub(crate) fn has_loop(statement: &Stmt) -> bool
    ensures { result ≡ has_loop (plain_statement statement.now) }
{
    match &statement.form {
        StmtForm::Loop(_, _, _, _, _) => true,
        StmtForm::Block(items) => have_loop(items.as_slice()),
        StmtForm::If(_, then, None) => has_loop(then),
        StmtForm::If(_, then, Some(otherwise)) => has_loop(then) | has_loop(otherwise),
        StmtForm::Switch(_, _, _, body) => has_loop(body),
        StmtForm::Set(_, _)
        | StmtForm::Update(_, _, _, _, _)
        | StmtForm::Copy(_, _)
        | StmtForm::Value(_)
        | StmtForm::Assert(_, _)
        | StmtForm::Declare(_, _)
        | StmtForm::Static(_)
        | StmtForm::Break
        | StmtForm::Continue
        | StmtForm::Return(_, _)
        | StmtForm::Empty
        | StmtForm::Mark(_) => false,
    }
}

/// Whether one of the statements has a loop.
#[cycle(looping)]
pub(crate) fn have_loop(all: &[Stmt]) -> bool
    ensures { result ≡ have_loop (plain_statements all.now) }
{
    for statement in all {
        if has_loop(statement) {
            return true;
        }
    }
    false
}
