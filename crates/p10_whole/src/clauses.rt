//! Which statements are declarations and which are expressions, and the clauses of loops (C99 6.8.5).

ghost use Rattle.std.specs.Prelude.{◌≡◌, ◌||◌, option_map};
ghost use Rattle.p10_core.specs.Views.{plain_statement, plain_statements, plain_value};
ghost use Rattle.p10_core.specs.WholePrograms.{AllOf, AreClauses, is_declaration, is_expression, is_variable_declaration};
ghost use Rattle.p10_whole.specs.private.Shows.{Shows};

use p10_core::{LoopKeyword, Stmt, StmtForm, Value};

/// Whether the clauses of a loop are those of its keyword: `while` and `do` have a test alone.
pub(crate) fn are_clauses(
    keyword: LoopKeyword,
    first: &[Stmt],
    test: &Option<Value>,
    third: &[Stmt],
) -> bool
    ensures { Shows result (AreClauses keyword (plain_statements first.now) (option_map plain_value test.now) (plain_statements third.now)) }
{
    match keyword {
        LoopKeyword::For => are_openings(first) & are_expressions(third),
        LoopKeyword::While | LoopKeyword::Do => {
            first.is_empty() & (third.is_empty() & test.is_some())
        }
    }
}

/// Whether each statement may stand in the first clause of a `for`.
fn are_openings(all: &[Stmt]) -> bool
    ensures { Shows result (AllOf (λ s. is_variable_declaration s || is_expression s) (plain_statements all.now)) }
{
    for s in all {
        let opens = is_variable_declaration(s) | is_expression(s);
        if !opens {
            return false;
        }
    }
    true
}

/// Whether each statement is an expression.
fn are_expressions(all: &[Stmt]) -> bool
    ensures { Shows result (AllOf is_expression (plain_statements all.now)) }
{
    for s in all {
        if !is_expression(s) {
            return false;
        }
    }
    true
}

/// Whether a statement is a declaration.
pub(crate) fn is_declaration(s: &Stmt) -> bool
    ensures { result ≡ is_declaration (plain_statement s.now) }
{
    matches!(&s.form, StmtForm::Declare(_, _) | StmtForm::Static(_))
}

/// Whether a statement declares a variable.
fn is_variable_declaration(s: &Stmt) -> bool
    ensures { result ≡ is_variable_declaration (plain_statement s.now) }
{
    matches!(&s.form, StmtForm::Declare(_, _))
}

/// Whether a statement is an expression.
fn is_expression(s: &Stmt) -> bool
    ensures { result ≡ is_expression (plain_statement s.now) }
{
    match &s.form {
        StmtForm::Set(_, _) | StmtForm::Update(_, _, _, _, _) | StmtForm::Copy(_, _) => true,
        StmtForm::Value(_) | StmtForm::Assert(_, _) => true,
        StmtForm::Declare(_, _) | StmtForm::Static(_) | StmtForm::Block(_) => false,
        StmtForm::If(_, _, _) | StmtForm::Loop(_, _, _, _, _) | StmtForm::Switch(_, _, _, _) => {
            false
        }
        StmtForm::Break | StmtForm::Continue | StmtForm::Return(_, _) => false,
        StmtForm::Empty | StmtForm::Mark(_) => false,
    }
}
