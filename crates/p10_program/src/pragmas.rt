//! Pragmas among the items of functions.

ghost use Rattle.std.specs.Prelude.{◌≡◌, map, option_map, option_copied, slice_get};
ghost use Rattle.std.specs.List.{position_from};
ghost use Rattle.p10_core.specs.Typed.{statements_list};
ghost use Rattle.p10_core.specs.Views.{plain_function, plain_statement, plain_statements};
ghost use Rattle.p10_core.specs.WholePrograms.{is_mark};
ghost use Rattle.p10_program.specs.Pragmas.{is_pragma, pragma_in};
ghost use Rattle.p10_program.specs.private.Marked.{pragma_of};

use p10_core::{Func, MarkKind, Stmt, StmtForm};

/// Whether two pragmas are of one kind.
fn is_mark(a: MarkKind, b: MarkKind) -> bool
    ensures { result ≡ is_mark a b }
{
    match a {
        MarkKind::InitDone => match b {
            MarkKind::InitDone => true,
            MarkKind::TaskLoop => false,
        },
        MarkKind::TaskLoop => match b {
            MarkKind::TaskLoop => true,
            MarkKind::InitDone => false,
        },
    }
}

/// Whether a statement is a pragma of a kind.
fn is_pragma(kind: MarkKind, statement: &Stmt) -> bool
    ensures { result ≡ is_pragma kind (plain_statement statement.now) }
{
    match &statement.form {
        StmtForm::Mark(found) => is_mark(kind, *found),
        StmtForm::If(_, _, None) => false,
        StmtForm::If(_, _, Some(_)) => false,
        StmtForm::Block(_) => false,
        StmtForm::Loop(_, _, _, _, _) => false,
        StmtForm::Set(_, _)
        | StmtForm::Update(_, _, _, _, _)
        | StmtForm::Copy(_, _)
        | StmtForm::Value(_)
        | StmtForm::Assert(_, _)
        | StmtForm::Declare(_, _)
        | StmtForm::Static(_)
        | StmtForm::Switch(_, _, _, _)
        | StmtForm::Break
        | StmtForm::Continue
        | StmtForm::Return(_, _)
        | StmtForm::Empty => false,
    }
}

/// The place of the first pragma of a kind among items.
fn pragma_place(kind: MarkKind, items: &[Stmt]) -> Option<usize>
    ensures { result ≡ position_from (is_pragma kind) 0 (statements_list (plain_statements items.now)) }
{
    for (place, item) in items.iter().enumerate() {
        if is_pragma(kind, item) {
            return Some(place);
        }
    }
    None
}

/// The function with a number, if it is there.
fn function_at<'a, 's>(functions: &'a [Func<'s>], number: usize) -> Option<&'a Func<'s>>
    ensures { option_map plain_function (option_copied result) ≡ slice_get (map plain_function functions.now) number }
{
    functions.get(number)
}

/// The place of the first pragma of a kind among the items of a function, if there is one.
fn pragma_of(kind: MarkKind, function: Option<&Func<'_>>) -> Option<usize>
    ensures { result ≡ pragma_of kind (option_map plain_function (option_copied function.entry)) }
{
    match function {
        Some(function) => pragma_place(kind, function.body.as_slice()),
        None => None,
    }
}

/// The place of the first pragma of a kind among the items of a function, by its number among functions, if it is there.
pub fn pragma_in(kind: MarkKind, number: Option<usize>, functions: &[Func<'_>]) -> Option<usize>
    ensures { result ≡ pragma_in kind number (map plain_function functions.now) }
{
    match number {
        Some(number) => pragma_of(kind, function_at(functions, number)),
        None => None,
    }
}
