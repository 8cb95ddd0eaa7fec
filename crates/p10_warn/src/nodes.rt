//! Violations by single nodes: narrowing conversions, comparisons of signed with unsigned operands, and `switch` without
//! `default`.

ghost use Rattle.std.specs.Prelude.{◌≡◌, ◌++◌, IfOk, flat_map};
ghost use Rattle.p10_core.specs.Types.{plain_type};
ghost use Rattle.p10_core.specs.Views.{plain_form, plain_place, plain_statement_form};
ghost use Rattle.p10_core.specs.Walks.{plain_node, left_in};
ghost use Rattle.p10_warn.specs.private.Listing.{value_violations, update_violations, statement_violations, node_violations};

use crate::comparisons::mixes_signs;
use crate::conversions::{is_narrowed, narrows};
use crate::listing::push_if;
use p10_base::{At, Violation};
use p10_core::{CType, Node, Nodes, Place, StmtForm, UpdateKind, ValueForm};
use std::alloc::AllocError;

/// Puts the violations by nodes after the others. It goes over all nodes.
pub(crate) fn push_by_nodes(
    nodes: &mut Nodes<'_>,
    violations: &mut Vec<Violation>,
) -> Result<(), AllocError>
    ensures { IfOk result (λ _. violations.new.items ≡ violations.old.items ++ flat_map node_violations (left_in nodes.old)) }
{
    while let Some(node) = nodes.next()? {
        push_by_node(node, violations)?;
    }
    Ok(())
}

/// Puts the violations by a node after the others.
fn push_by_node(node: Node<'_>, violations: &mut Vec<Violation>) -> Result<(), AllocError>
    ensures { IfOk result (λ _. violations.new.items ≡ violations.old.items ++ node_violations (plain_node node.entry)) }
{
    match node {
        Node::Stmt(statement) => push_by_statement(statement.at, &statement.form, violations),
        Node::Value(value) => push_by_value(value.at, &value.ty, &value.form, violations),
        Node::Place(_) => Ok(()),
    }
}

/// Puts the violations by a form of value after the others.
fn push_by_value(
    at: At,
    kind: &CType,
    form: &ValueForm,
    violations: &mut Vec<Violation>,
) -> Result<(), AllocError>
    ensures { IfOk result (λ _. violations.new.items ≡ violations.old.items ++ value_violations at (plain_type kind.now) (plain_form form.now)) }
{
    match form {
        ValueForm::Convert(part) => push_if(3, is_narrowed(kind, part), part.at.span, violations),
        ValueForm::Binary(operator, left, right) => push_if(
            4,
            mixes_signs(*operator, left, right),
            at.span,
            violations,
        ),
        ValueForm::Const(_)
        | ValueForm::Read(_)
        | ValueForm::Sense(_)
        | ValueForm::Addr(_)
        | ValueForm::Decay(_)
        | ValueForm::Cast(_)
        | ValueForm::Unary(_, _)
        | ValueForm::Logic(_, _, _)
        | ValueForm::Cond(_, _, _) => Ok(()),
        ValueForm::Call(_, _, _) | ValueForm::Builtin(_, _, _) => Ok(()),
    }
}

/// Puts the violations by a form of statement after the others.
fn push_by_statement(
    at: At,
    form: &StmtForm,
    violations: &mut Vec<Violation>,
) -> Result<(), AllocError>
    ensures { IfOk result (λ _. violations.new.items ≡ violations.old.items ++ statement_violations at (plain_statement_form form.now)) }
{
    match form {
        StmtForm::Update(kind, _, operated, place, _) => push_by_update(
            *kind, at, operated, place, violations,
        ),
        StmtForm::Switch(keyword, _, labels, _) => push_if(
            6,
            labels.otherwise.is_none(),
            *keyword,
            violations,
        ),
        StmtForm::Set(_, _)
        | StmtForm::Copy(_, _)
        | StmtForm::Value(_)
        | StmtForm::Assert(_, _)
        | StmtForm::Declare(_, _)
        | StmtForm::Static(_)
        | StmtForm::Block(_)
        | StmtForm::If(_, _, _)
        | StmtForm::Loop(_, _, _, _, _)
        | StmtForm::Break
        | StmtForm::Continue
        | StmtForm::Return(_, _)
        | StmtForm::Empty
        | StmtForm::Mark(_) => Ok(()),
    }
}

/// Puts the violations by an update of a place after the others.
fn push_by_update(
    kind: UpdateKind,
    at: At,
    operated: &CType,
    place: &Place,
    violations: &mut Vec<Violation>,
) -> Result<(), AllocError>
    ensures { IfOk result (λ _. violations.new.items ≡ violations.old.items ++ update_violations kind at (plain_type operated.now) (plain_place place.now)) }
{
    match kind {
        UpdateKind::Step => Ok(()),
        UpdateKind::Compound => {
            push_if(3, narrows(&place.ty, operated), place.at.span, violations)?;
            push_if(3, narrows(operated, &place.ty), at.span, violations)
        }
    }
}
