//! Marks of the variables that a statement may change.

ghost use Rattle.std.specs.Prelude.{◌≡◌, replicate, slice_set, true, false, IfOk};
ghost use Rattle.p10_core.specs.Views.{plain_place, plain_statement, plain_statements};
ghost use Rattle.p10_meaning.specs.Variables.{may_change};
ghost use Rattle.p10_pass.specs.Marks.{AreMarks};
ghost use Rattle.p10_walk.specs.private.Marking.{marks_place, marks_statement, marks_all};

use p10_core::{Place, PlaceForm, Stmt, StmtForm};
use std::alloc::{AllocError, Global};

/// Marks of the variables that a statement may change, for so many numbers.
pub fn changed_marks(alloc: Global, s: &Stmt, count: usize) -> Result<Vec<bool>, AllocError>
    ensures { IfOk result (λ marks. AreMarks (λ n. may_change n (plain_statement s.now)) count marks.items) }
{
    let mut marks = unmarked(alloc, count)?;
    mark_statement(s, &mut marks);
    Ok(marks)
}

/// No marks, for so many numbers.
fn unmarked(alloc: Global, count: usize) -> Result<Vec<bool>, AllocError>
    ensures { IfOk result (λ marks. marks.items ≡ replicate count false) }
{
    let mut marks = Vec::new(alloc);
    marks.resize(count, false)?;
    Ok(marks)
}

/// Marks the variables that a statement assigns or declares.
#[cycle(marking)]
fn mark_statement(s: &Stmt, marks: &mut Vec<bool>)
    ensures { marks.new.items ≡ marks_statement (plain_statement s.now) marks.old.items }
{
    match &s.form {
        StmtForm::Set(target, _) => mark_place(target, marks),
        StmtForm::Update(_, _, _, target, _) => mark_place(target, marks),
        StmtForm::Declare(n, _) => mark(*n as usize, marks),
        StmtForm::Block(items) => mark_all(items.as_slice(), marks),
        StmtForm::If(_, then, None) => mark_statement(then, marks),
        StmtForm::If(_, then, Some(other)) => {
            mark_statement(then, marks);
            mark_statement(other, marks);
        }
        StmtForm::Loop(_, first, _, third, body) => {
            mark_all(first.as_slice(), marks);
            mark_all(third.as_slice(), marks);
            mark_statement(body, marks);
        }
        StmtForm::Switch(_, _, _, body) => mark_statement(body, marks),
        StmtForm::Copy(_, _)
        | StmtForm::Value(_)
        | StmtForm::Assert(_, _)
        | StmtForm::Static(_)
        | StmtForm::Break
        | StmtForm::Continue
        | StmtForm::Return(_, _)
        | StmtForm::Empty
        | StmtForm::Mark(_) => {}
    }
}

/// Marks the variables that statements assign or declare.
#[cycle(marking)]
fn mark_all(items: &[Stmt], marks: &mut Vec<bool>)
    ensures { marks.new.items ≡ marks_all (plain_statements items.now) marks.old.items }
{
    for s in items {
        mark_statement(s, marks);
    }
}

/// Marks the variable that a place is.
fn mark_place(target: &Place, marks: &mut Vec<bool>)
    ensures { marks.new.items ≡ marks_place (plain_place target.now) marks.old.items }
{
    match &target.form {
        PlaceForm::Var(n) => mark(*n as usize, marks),
        PlaceForm::Global(_)
        | PlaceForm::Literal(_, _)
        | PlaceForm::Index(_, _)
        | PlaceForm::Member(_, _)
        | PlaceForm::Deref(_) => {}
    }
}

/// Marks a variable by its number.
fn mark(n: usize, marks: &mut Vec<bool>)
    ensures { marks.new.items ≡ slice_set marks.old.items n true }
{
    if n < marks.len() {
        marks[n] = true;
    }
}
