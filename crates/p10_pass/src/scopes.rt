//! Which variables statements assign, and which go out of scope at a block's end.

ghost use Rattle.std.specs.Prelude.{◌≡◌, slice_set, true};
ghost use Rattle.std.specs.Option.{option_map};
ghost use Rattle.p10_core.specs.Views.{plain_place, plain_statement, plain_statements};
ghost use Rattle.p10_absx.specs.Trails.{with_values};
ghost use Rattle.p10_pass.specs.Scopes.{left_scope};
ghost use Rattle.p10_pass.specs.Passing.{as_block};
ghost use Rattle.p10_pass.specs.Leaving.{values_in, left_of};
ghost use Rattle.p10_pass.specs.private.Marking.{marks_place, marks_statement, marks_all, declared_by, without_declared};

use crate::left::Left;
use p10_absx::Env;
use p10_core::{Place, PlaceForm, Stmt, StmtForm};

/// Marks the variables that a statement assigns. A declaration assigns nothing.
#[cycle(marking)]
pub(crate) fn mark_statement(s: &Stmt, marks: &mut Vec<bool>)
    ensures { marks.new.items ≡ marks_statement (plain_statement s.now) marks.old.items }
{
    match &s.form {
        StmtForm::Set(target, _) => mark_place(target, marks),
        StmtForm::Update(_, _, _, target, _) => mark_place(target, marks),
        StmtForm::Block(items) => mark_all(items.as_slice(), marks),
        StmtForm::If(_, then, None) => mark_statement(then, marks),
        StmtForm::If(_, then, Some(other)) => {
            mark_statement(then, marks);
            mark_statement(other, marks);
        }
        StmtForm::Loop(_, first, _, third, body) => {
            mark_all(first.as_slice(), marks);
            mark_all(third.as_slice(), marks);
            mark_statement(body, marks);
        }
        StmtForm::Switch(_, _, _, body) => mark_statement(body, marks),
        StmtForm::Copy(_, _)
        | StmtForm::Value(_)
        | StmtForm::Assert(_, _)
        | StmtForm::Declare(_, _)
        | StmtForm::Static(_)
        | StmtForm::Break
        | StmtForm::Continue
        | StmtForm::Return(_, _)
        | StmtForm::Empty
        | StmtForm::Mark(_) => {}
    }
}

/// Marks the variables that statements assign.
#[cycle(marking)]
fn mark_all(items: &[Stmt], marks: &mut Vec<bool>)
    ensures { marks.new.items ≡ marks_all (plain_statements items.now) marks.old.items }
{
    for s in items {
        mark_statement(s, marks);
    }
}

/// Marks the variable that a place is.
fn mark_place(target: &Place, marks: &mut Vec<bool>)
    ensures { marks.new.items ≡ marks_place (plain_place target.now) marks.old.items }
{
    match &target.form {
        PlaceForm::Var(n) => mark(*n as usize, marks),
        PlaceForm::Global(_)
        | PlaceForm::Literal(_, _)
        | PlaceForm::Index(_, _)
        | PlaceForm::Member(_, _)
        | PlaceForm::Deref(_) => {}
    }
}

/// Marks a variable by its number.
pub(crate) fn mark(n: usize, marks: &mut Vec<bool>)
    ensures { marks.new.items ≡ slice_set marks.old.items n true }
{
    if n < marks.len() {
        marks[n] = true;
    }
}

/// The variable that a statement declares.
fn declared_by(s: &Stmt) -> Option<u32>
    ensures { result ≡ declared_by (plain_statement s.now) }
{
    match &s.form {
        StmtForm::Declare(n, _) => Some(*n),
        StmtForm::Set(_, _)
        | StmtForm::Update(_, _, _, _, _)
        | StmtForm::Copy(_, _)
        | StmtForm::Value(_)
        | StmtForm::Assert(_, _)
        | StmtForm::Static(_)
        | StmtForm::Block(_)
        | StmtForm::If(_, _, None)
        | StmtForm::If(_, _, Some(_))
        | StmtForm::Loop(_, _, _, _, _)
        | StmtForm::Switch(_, _, _, _)
        | StmtForm::Break
        | StmtForm::Continue
        | StmtForm::Return(_, _)
        | StmtForm::Empty
        | StmtForm::Mark(_) => None,
    }
}

/// Takes the variable out of scope that a statement declares, if it declares one.
fn forget_declared(env: &mut Env, s: &Stmt)
    ensures { env.new ≡ with_values env.old (without_declared (declared_by (plain_statement s.now)) env.old.values) }
{
    if let Some(n) = declared_by(s) {
        env.forget(n);
    }
}

/// Takes the variables out of scope that statements declare themselves.
fn leave_scope(env: &mut Env, items: &[Stmt])
    ensures { env.new ≡ with_values env.old (left_scope (plain_statements items.now) env.old.values) }
{
    for s in items {
        forget_declared(env, s);
    }
}

/// The same where a state may not come.
fn end_scope(env: &mut Option<Env>, items: &[Stmt])
    ensures { values_in env.new ≡ option_map (left_scope (plain_statements items.now)) (values_in env.old) }
{
    if let Some(env) = env {
        leave_scope(env, items);
    }
}

impl Left {
    /// Ends the block that these statements are: the variables that they declare go out of scope.
    pub(crate) fn end_block(&mut self, items: &[Stmt])
        ensures { left_of self.new ≡ as_block (plain_statements items.now) (left_of self.old) }
    {
        end_scope(&mut self.normal, items);
        end_scope(&mut self.breaks, items);
        end_scope(&mut self.continues, items);
        end_scope(&mut self.returns, items);
    }
}
