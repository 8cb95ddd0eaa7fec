//! Whether the labels of a `switch` are whole (C99 6.8.4.2).

ghost use Rattle.std.specs.Prelude.{◌≡◌, ◌∷◌, ◌≤◌, ◌<◌, [], true, false, not, ℕ, length, All, IfOk, OnOk, IfSome, map, option_map};
ghost use Rattle.std.specs.List.{list_any};
ghost use Rattle.std.specs.Ordering.{int_eq};
ghost use Rattle.p10_int.specs.Types.{InRange};
ghost use Rattle.p10_core.specs.Views.{plain_statement, plain_value, plain_labels};
ghost use Rattle.p10_core.specs.WholePrograms.{AreCases, Switches, is_declaration};
ghost use Rattle.p10_numbers.specs.Numbers.{with_number};
ghost use Rattle.p10_whole.specs.private.Shows.{Shows};
ghost use Rattle.p10_whole.specs.private.Surroundings.{surroundings_in};
ghost use Rattle.p10_whole.specs.private.Labels.{AreLabels, AreLabelsIn, block_items};

use crate::around::Around;
use crate::assignments::is_kind;
use crate::clauses::is_declaration;
use crate::values::is_whole_value;
use p10_core::{Label, Labels, Stmt, StmtForm, TypeForm, Value};
use p10_int::{IntType, holds, promote};
use p10_numbers::NumberList;
use std::alloc::{AllocError, Global};

/// Whether a `switch` is whole, its body's parts aside.
pub(crate) fn switches(
    alloc: Global,
    around: &Around<'_, '_>,
    value: &Value,
    labels: &Labels,
    body: &Stmt,
) -> Result<bool, AllocError>
    ensures { IfOk result (λ b. Shows b (Switches (surroundings_in around.now) (plain_value value.now) (plain_labels labels.now) (plain_statement body.now))) }
{
    match &value.ty.form {
        TypeForm::Int(kind) => {
            let promoted = !value.ty.is_const & is_kind(promote(*kind), *kind);
            let labelled = are_labels(alloc, *kind, labels, body)?;
            Ok(is_whole_value(around, value) & (promoted & labelled))
        }
        _ => Ok(false),
    }
}

/// Whether labels are those of a `switch` on an integer of a type, with this body.
fn are_labels(
    alloc: Global,
    kind: IntType,
    labels: &Labels,
    body: &Stmt,
) -> Result<bool, AllocError>
    ensures { IfOk result (λ b. Shows b (AreLabels kind (plain_labels labels.now) (plain_statement body.now))) }
{
    match block_items(body) {
        Some(items) => are_labels_in(alloc, kind, labels, items),
        None => {
            let none = labels.cases.as_slice().is_empty() & labels.otherwise.is_none();
            Ok(none & !is_declaration(body))
        }
    }
}

/// Whether labels are those of a `switch` on an integer of a type, whose body is a block with these items.
fn are_labels_in(
    alloc: Global,
    kind: IntType,
    labels: &Labels,
    items: &[Stmt],
) -> Result<bool, AllocError>
    ensures { IfOk result (λ b. Shows b (AreLabelsIn kind (plain_labels labels.now) (map plain_statement items.now))) }
{
    let count = items.len();
    let cases = are_cases(alloc, kind, count, labels.cases.as_slice())?;
    Ok(cases & (is_below(labels.otherwise, count) & declare_nothing(items)))
}

/// Whether a number is below another, if there is one.
pub(crate) fn is_below(number: Option<u32>, count: usize) -> bool
    ensures { Shows result (IfSome number (λ n. n < count)) }
{
    match number {
        Some(number) => (number as usize) < count,
        None => true,
    }
}

/// The items of a block, where a statement is one.
fn block_items(body: &Stmt) -> Option<&[Stmt]>
    ensures { option_map (λ items. map plain_statement items.now) result ≡ block_items (plain_statement body.now) }
{
    match &body.form {
        StmtForm::Block(items) => Some(items.as_slice()),
        StmtForm::Set(_, _) | StmtForm::Update(_, _, _, _, _) | StmtForm::Copy(_, _) => None,
        StmtForm::Value(_) | StmtForm::Assert(_, _) => None,
        StmtForm::Declare(_, _) | StmtForm::Static(_) => None,
        StmtForm::If(_, _, _) | StmtForm::Loop(_, _, _, _, _) | StmtForm::Switch(_, _, _, _) => {
            None
        }
        StmtForm::Break | StmtForm::Continue | StmtForm::Return(_, _) => None,
        StmtForm::Empty | StmtForm::Mark(_) => None,
    }
}

/// Whether no item is a declaration.
fn declare_nothing(items: &[Stmt]) -> bool
    ensures { Shows result (All (λ s. is_declaration s ≡ false) (map plain_statement items.now)) }
{
    for item in items {
        if is_declaration(item) {
            return false;
        }
    }
    true
}

/// Whether labels have values of a type, each another one, and stand in text order before items, of which there are
/// `count`.
fn are_cases(
    alloc: Global,
    kind: IntType,
    count: usize,
    cases: &[Label],
) -> Result<bool, AllocError>
    ensures { IfOk result (λ b. Shows b (AreCases kind 0 count [] cases.now)) }
{
    let mut from = 0;
    let mut seen = NumberList::new(alloc);
    for (i, label) in cases.iter().enumerate() {
        let whole = is_case(kind, from, count, label);
        let new = note_value(&mut seen, label)?;
        if !whole || !new {
            return Ok(false);
        }
        from = label.place;
    }
    Ok(true)
}

/// Notes the value of a label: whether it is new.
fn note_value(seen: &mut NumberList, label: &Label) -> Result<bool, AllocError>
    ensures ok { OnOk result (seen.new ≡ with_number seen.old label.now.value) }
    ensures new { IfOk result (λ new. new ≡ not (list_any (int_eq label.now.value) seen.old)) }
{
    seen.add(label.value)
}

/// Whether a label has a value of a type, and stands before one of `count` items, none before that of the number `from`.
fn is_case(kind: IntType, from: u32, count: usize, label: &Label) -> bool
    ensures { Shows result (InRange kind label.now.value × (from ≤ label.now.place) × (label.now.place < count)) }
{
    holds(kind, label.value) & ((from <= label.place) & ((label.place as usize) < count))
}
