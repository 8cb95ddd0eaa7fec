//! Marks of variables and of items by their numbers.

ghost use Rattle.std.specs.Prelude.{◌≡◌, replicate, false, IfOk};
ghost use Rattle.p10_core.specs.Views.{plain_statement, plain_labels};
ghost use Rattle.p10_pass.specs.Scopes.{assigns};
ghost use Rattle.p10_pass.specs.Passing.{is_labelled};
ghost use Rattle.p10_pass.specs.Marks.{is_marked, AreMarks};
ghost use Rattle.p10_pass.specs.private.Walking.{marks_cases, marks_otherwise};

use crate::scopes::{mark, mark_statement};
use p10_core::{Label, Labels, Stmt};
use std::alloc::{AllocError, Global};

/// No marks, for `count` numbers.
fn unmarked(alloc: Global, count: usize) -> Result<Vec<bool>, AllocError>
    ensures { IfOk result (λ marks. marks.items ≡ replicate count false) }
{
    let mut marks = Vec::new(alloc);
    marks.resize(count, false)?;
    Ok(marks)
}

/// Whether a number is marked.
pub fn is_marked(marks: &[bool], n: usize) -> bool
    ensures { result ≡ is_marked marks.now n }
{
    match marks.get(n) {
        Some(marked) => *marked,
        None => false,
    }
}

/// Marks of the variables that a statement assigns.
pub fn assigned_marks(alloc: Global, s: &Stmt, count: usize) -> Result<Vec<bool>, AllocError>
    ensures { IfOk result (λ marks. AreMarks (λ n. assigns n (plain_statement s.now)) count marks.items) }
{
    let mut marks = unmarked(alloc, count)?;
    mark_statement(s, &mut marks);
    Ok(marks)
}

/// Marks of the items of a `switch`'s body that a label stands before.
pub fn label_marks(alloc: Global, labels: &Labels, count: usize) -> Result<Vec<bool>, AllocError>
    ensures { IfOk result (λ marks. AreMarks (λ n. is_labelled n (plain_labels labels.now)) count marks.items) }
{
    let mut marks = unmarked(alloc, count)?;
    mark_cases(labels.cases.as_slice(), &mut marks);
    mark_otherwise(labels.otherwise, &mut marks);
    Ok(marks)
}

/// Marks the items that `case`s stand before.
fn mark_cases(cases: &[Label], marks: &mut Vec<bool>)
    ensures { marks.new.items ≡ marks_cases cases.now marks.old.items }
{
    for label in cases {
        mark(label.place as usize, marks);
    }
}

/// Marks the item that `default` stands before.
fn mark_otherwise(place: Option<u32>, marks: &mut Vec<bool>)
    ensures { marks.new.items ≡ marks_otherwise place marks.old.items }
{
    if let Some(n) = place {
        mark(n as usize, marks);
    }
}
