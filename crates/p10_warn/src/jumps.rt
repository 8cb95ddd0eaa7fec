//! Statements directly after a jump in their block.

ghost use Rattle.std.specs.Prelude.{◌≡◌, ◌++◌, ◌∷◌, [], false, IfOk, flat_map, option_map};
ghost use Rattle.p10_core.specs.Views.{plain_labels, plain_statement, plain_statements};
ghost use Rattle.p10_warn.specs.Jumps.{is_jump, labelled_places, blocks_in, blocks_among};
ghost use Rattle.p10_warn.specs.private.Branches.{blocks_in_branch};
ghost use Rattle.p10_warn.specs.private.Listing.{items_after_jumps, block_violations};

use crate::listing::push_if;
use crate::number_set::NumberSet;
use p10_base::Violation;
use p10_core::{Labels, Stmt, StmtForm};
use std::alloc::{AllocError, Global};

/// Puts the violations in the body of a function after the others.
pub(crate) fn push_after_jumps(
    alloc: Global,
    body: &[Stmt],
    violations: &mut Vec<Violation>,
) -> Result<(), AllocError>
    ensures { IfOk result (λ _. violations.new.items ≡ violations.old.items ++ flat_map block_violations (record { items = plain_statements body.now; labelled = [] } ∷ blocks_among (plain_statements body.now))) }
{
    push_block(alloc, body, &[], violations)?;
    push_among(body, alloc, violations)
}

/// Puts the violations in the blocks in statements after the others.
#[cycle(blocks)]
fn push_among(
    all: &[Stmt],
    alloc: Global,
    violations: &mut Vec<Violation>,
) -> Result<(), AllocError>
    ensures { IfOk result (λ _. violations.new.items ≡ violations.old.items ++ flat_map block_violations (blocks_among (plain_statements all.now))) }
{
    for statement in all {
        push_in(statement, alloc, &[], violations)?;
    }
    Ok(())
}

/// Puts the violations in the blocks in a statement after the others. It may be the body of a `switch` with labels before the
/// items at some places.
#[cycle(blocks)]
fn push_in(
    statement: &Stmt,
    alloc: Global,
    labelled: &[u32],
    violations: &mut Vec<Violation>,
) -> Result<(), AllocError>
    ensures { IfOk result (λ _. violations.new.items ≡ violations.old.items ++ flat_map block_violations (blocks_in labelled.now (plain_statement statement.now))) }
{
    match &statement.form {
        StmtForm::Block(items) => push_blocks(items.as_slice(), alloc, labelled, violations),
        StmtForm::If(_, then, other) => {
            push_in(then, alloc, &[], violations)?;
            push_branch(other, alloc, violations)
        }
        StmtForm::Loop(_, _, _, _, body) => push_in(body, alloc, &[], violations),
        StmtForm::Switch(_, _, labels, body) => push_labelled(body, alloc, labels, violations),
        StmtForm::Set(_, _)
        | StmtForm::Update(_, _, _, _, _)
        | StmtForm::Copy(_, _)
        | StmtForm::Value(_)
        | StmtForm::Assert(_, _)
        | StmtForm::Declare(_, _)
        | StmtForm::Static(_)
        | StmtForm::Break
        | StmtForm::Continue
        | StmtForm::Return(_, _)
        | StmtForm::Empty
        | StmtForm::Mark(_) => Ok(()),
    }
}

/// Puts the violations in the second branch of an `if` after the others, if there is one.
#[cycle(blocks)]
fn push_branch(
    branch: &Option<Box<Stmt>>,
    alloc: Global,
    violations: &mut Vec<Violation>,
) -> Result<(), AllocError>
    ensures { IfOk result (λ _. violations.new.items ≡ violations.old.items ++ flat_map block_violations (blocks_in_branch (option_map (λ b. plain_statement b.value) branch.now))) }
{
    match branch {
        Some(otherwise) => push_in(otherwise, alloc, &[], violations),
        None => Ok(()),
    }
}

/// Puts the violations in the body of a `switch` after the others.
#[cycle(blocks)]
fn push_labelled(
    body: &Stmt,
    alloc: Global,
    labels: &Labels,
    violations: &mut Vec<Violation>,
) -> Result<(), AllocError>
    ensures { IfOk result (λ _. violations.new.items ≡ violations.old.items ++ flat_map block_violations (blocks_in (labelled_places (plain_labels labels.now)) (plain_statement body.now))) }
{
    let places = labelled_places(alloc, labels)?;
    push_in(body, alloc, places.as_slice(), violations)
}

/// Puts the violations in a block and in the blocks in it after the others.
#[cycle(blocks)]
fn push_blocks(
    items: &[Stmt],
    alloc: Global,
    labelled: &[u32],
    violations: &mut Vec<Violation>,
) -> Result<(), AllocError>
    ensures { IfOk result (λ _. violations.new.items ≡ violations.old.items ++ flat_map block_violations (record { items = plain_statements items.now; labelled = labelled.now } ∷ blocks_among (plain_statements items.now))) }
{
    push_block(alloc, items, labelled, violations)?;
    push_among(items, alloc, violations)
}

/// The places of the items before which labels stand.
fn labelled_places(alloc: Global, labels: &Labels) -> Result<Vec<u32>, AllocError>
    ensures { IfOk result (λ places. places.items ≡ labelled_places (plain_labels labels.now)) }
{
    let mut places = Vec::new(alloc);
    for label in labels.cases.as_slice() {
        places.push(label.place)?;
    }
    if let Some(place) = labels.otherwise {
        places.push(place)?;
    }
    Ok(places)
}

/// Puts the violations by the items of a block after the others.
fn push_block(
    alloc: Global,
    items: &[Stmt],
    labelled: &[u32],
    violations: &mut Vec<Violation>,
) -> Result<(), AllocError>
    ensures { IfOk result (λ _. violations.new.items ≡ violations.old.items ++ items_after_jumps labelled.now false 0 (plain_statements items.now)) }
{
    let places = NumberSet::of(alloc, Vec::from_slice(alloc, labelled)?)?;
    push_items(items, &places, violations)
}

/// Puts the violations by items after the others, where labels stand before those at some places.
fn push_items(
    items: &[Stmt],
    labelled: &NumberSet,
    violations: &mut Vec<Violation>,
) -> Result<(), AllocError>
    ensures { IfOk result (λ _. violations.new.items ≡ violations.old.items ++ items_after_jumps labelled.now.list.items false 0 (plain_statements items.now)) }
{
    let mut after = false;
    for (number, item) in items.iter().enumerate() {
        push_if(7, after && !labelled.has(number), item.at.span, violations)?;
        after = is_jump(item);
    }
    Ok(())
}

/// Whether a statement is a jump.
fn is_jump(statement: &Stmt) -> bool
    ensures { result ≡ is_jump (plain_statement statement.now) }
{
    match &statement.form {
        StmtForm::Break | StmtForm::Continue | StmtForm::Return(_, _) => true,
        StmtForm::Set(_, _)
        | StmtForm::Update(_, _, _, _, _)
        | StmtForm::Copy(_, _)
        | StmtForm::Value(_)
        | StmtForm::Assert(_, _)
        | StmtForm::Declare(_, _)
        | StmtForm::Static(_)
        | StmtForm::Block(_)
        | StmtForm::If(_, _, None)
        | StmtForm::If(_, _, Some(_))
        | StmtForm::Loop(_, _, _, _, _)
        | StmtForm::Switch(_, _, _, _)
        | StmtForm::Empty
        | StmtForm::Mark(_) => false,
    }
}
