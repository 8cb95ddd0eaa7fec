//! Variables that change or go out of scope.

ghost use Rattle.std.specs.Prelude.{◌≡◌, map, OnOk};
ghost use Rattle.p10_core.specs.Views.{plain_variable, plain_statement, plain_statements};
ghost use Rattle.p10_absx.specs.Abstract.{abstract_of};
ghost use Rattle.p10_absx.specs.Trails.{with_values};
ghost use Rattle.p10_pass.specs.Marks.{is_marked};
ghost use Rattle.p10_pass.specs.Scopes.{left_scope, changed_each};
ghost use Rattle.p10_pass.specs.private.Renewing.{renewed};
ghost use Rattle.p10_diff.specs.private.Scopes.{forgotten, declared_by, without_declared};

use p10_absx::{Abs, Env, whole_type};
use p10_core::{Stmt, StmtForm, Variable, integer_of};
use p10_pass::is_marked;
use std::alloc::AllocError;

/// What a variable has that may have changed where it is marked.
fn forgotten(marks: &[bool], n: u32, v: &Variable<'_>, a: Abs) -> Abs
    ensures { abstract_of result ≡ forgotten (λ n. is_marked marks.now n) n (plain_variable v.now) (abstract_of a) }
{
    if is_marked(marks, n as usize) {
        whole_type(integer_of(&v.ty))
    } else {
        a
    }
}

/// A marked variable, if it is in scope, may have any value of its type.
fn forget_variable(marks: &[bool], n: u32, v: &Variable<'_>, env: &mut Env)
    ensures { env.new ≡ with_values env.old (renewed (forgotten (λ n. is_marked marks.now n)) n (plain_variable v.now) env.old.values) }
{
    if let Some(a) = env.get(n) {
        env.set(n, forgotten(marks, n, v, a));
    }
}

/// The same for all variables. More than 32 bits number never fit memory, and are answered as out of memory.
pub(crate) fn forget_marked(
    marks: &[bool],
    variables: &[Variable<'_>],
    env: &mut Env,
) -> Result<(), AllocError>
    ensures { OnOk result (env.new ≡ with_values env.old (changed_each (forgotten (λ n. is_marked marks.now n)) 0 (map plain_variable variables.now) env.old.values)) }
{
    if variables.len() > u32::MAX as usize {
        return Err(AllocError);
    }
    for (n, v) in variables.iter().enumerate() {
        forget_variable(marks, n as u32, v, env);
    }
    Ok(())
}

/// The variable that a statement declares.
fn declared_by(s: &Stmt) -> Option<u32>
    ensures { result ≡ declared_by (plain_statement s.now) }
{
    match &s.form {
        StmtForm::Declare(n, _) => Some(*n),
        StmtForm::Set(_, _)
        | StmtForm::Update(_, _, _, _, _)
        | StmtForm::Copy(_, _)
        | StmtForm::Value(_)
        | StmtForm::Assert(_, _)
        | StmtForm::Static(_)
        | StmtForm::Block(_)
        | StmtForm::If(_, _, None)
        | StmtForm::If(_, _, Some(_))
        | StmtForm::Loop(_, _, _, _, _)
        | StmtForm::Switch(_, _, _, _)
        | StmtForm::Break
        | StmtForm::Continue
        | StmtForm::Return(_, _)
        | StmtForm::Empty
        | StmtForm::Mark(_) => None,
    }
}

/// Takes the variable out of scope that a statement declares, if it declares one.
pub(crate) fn forget_declared(env: &mut Env, s: &Stmt)
    ensures { env.new ≡ with_values env.old (without_declared (declared_by (plain_statement s.now)) env.old.values) }
{
    if let Some(n) = declared_by(s) {
        env.forget(n);
    }
}

/// Takes the variables out of scope that statements declare themselves.
pub(crate) fn leave_scope(env: &mut Env, items: &[Stmt])
    ensures { env.new ≡ with_values env.old (left_scope (plain_statements items.now) env.old.values) }
{
    for s in items {
        forget_declared(env, s);
    }
}
