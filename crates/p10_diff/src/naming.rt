//! Which variables a certificate may name.

ghost use Rattle.std.specs.Prelude.{◌≡◌, ◌||◌};
ghost use Rattle.std.specs.Option.{option_map};
ghost use Rattle.p10_core.specs.Views.{plain_function, plain_initializer, plain_statement, plain_statements};
ghost use Rattle.p10_diff.specs.Evidence.{is_given, gives_value, any_gives_value, may_be_named};
ghost use Rattle.p10_diff.specs.Knowing.{pair_by};
ghost use Rattle.p10_diff.specs.private.Naming.{else_gives_value};

use crate::known::Pair;
use p10_absx::Env;
use p10_core::{Func, Initializer, Stmt, StmtForm};

/// Whether an initialiser is there.
fn is_given(initial: &Initializer) -> bool
    ensures { result ≡ is_given (plain_initializer initial.now) }
{
    match initial {
        Initializer::Absent => false,
        Initializer::Single(_) | Initializer::Copied(_) | Initializer::Listed(_, _) => true,
    }
}

/// Whether one of two holds.
fn either(a: bool, b: bool) -> bool
    ensures { result ≡ (a || b) }
{
    a || b
}

/// Whether a variable is declared with a value.
#[cycle(declaring)]
fn gives_value(n: u32, s: &Stmt) -> bool
    ensures { result ≡ gives_value n (plain_statement s.now) }
{
    match &s.form {
        StmtForm::Declare(m, initial) => n == *m && is_given(initial),
        StmtForm::Block(items) => any_gives_value(n, items.as_slice()),
        StmtForm::If(_, then, other) => {
            if gives_value(n, then) {
                return true;
            }
            else_gives_value(n, other)
        }
        StmtForm::Loop(_, first, _, _, body) => either(
            any_gives_value(n, first.as_slice()),
            gives_value(n, body),
        ),
        StmtForm::Switch(_, _, _, body) => gives_value(n, body),
        StmtForm::Set(_, _)
        | StmtForm::Update(_, _, _, _, _)
        | StmtForm::Copy(_, _)
        | StmtForm::Value(_)
        | StmtForm::Assert(_, _)
        | StmtForm::Static(_)
        | StmtForm::Break
        | StmtForm::Continue
        | StmtForm::Return(_, _)
        | StmtForm::Empty
        | StmtForm::Mark(_) => false,
    }
}

/// The same of the second branch of an `if`, if there is one.
#[cycle(declaring)]
fn else_gives_value(n: u32, other: &Option<Box<Stmt>>) -> bool
    ensures { result ≡ else_gives_value n (option_map (λ x. plain_statement x.value) other.now) }
{
    match other {
        Some(s) => gives_value(n, s),
        None => false,
    }
}

/// The same of statements.
#[cycle(declaring)]
fn any_gives_value(n: u32, items: &[Stmt]) -> bool
    ensures { result ≡ any_gives_value n (plain_statements items.now) }
{
    for s in items {
        if gives_value(n, s) {
            return true;
        }
    }
    false
}

/// Whether a variable may be named where an environment is known.
pub(crate) fn may_be_named(function: &Func<'_>, p: &Pair<'_, '_>, entry: &Env, n: u32) -> bool
    ensures { result ≡ may_be_named (plain_function function.now) (pair_by p.now) entry.now.values n }
{
    p.has_name(n)
        && (entry.get(n).is_some()
            && (n < function.params || any_gives_value(n, function.body.as_slice())))
}
