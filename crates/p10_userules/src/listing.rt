//! The rows, one after the other.

ghost use Rattle.std.specs.Prelude.{◌≡◌, ◌≤◌, ◌++◌, IfOk, length, map, option_map, option_copied, slice_get, Some, None, take, not, ◌&&◌};
ghost use Rattle.std.specs.List.{flat_map};
ghost use Rattle.p10_core.specs.Types.{plain_type};
ghost use Rattle.p10_core.specs.Views.{plain_function, plain_object, plain_variable, plain_statement, plain_form};
ghost use Rattle.p10_core.specs.Walks.{plain_node, left_in};
ghost use Rattle.p10_core.specs.Nodes.{nodes_of_statements};
ghost use Rattle.p10_core.specs.Views.{plain_statements};
ghost use Rattle.p10_userules.specs.Violations.{row, is_truth, is_call_form, drops_result};
ghost use Rattle.p10_userules.specs.private.Spreads.{StretchesRise, lies_in_one};
ghost use Rattle.p10_userules.specs.private.Listing.{violation_where, violation_at, wide_objects, spread_for, name_of, wide_in, dropped_by, starts_unchecked, unchecked_among};

use crate::occurrences::Referent;
use crate::parts::{BlockParts, Stretch};
use crate::spreads::{Spread, lies_in_one};
use p10_base::{Span, Sub, Violation};
use p10_core::{
    CType, Func, Global as StaticObject, Node, Nodes, Stmt, StmtForm, TypeForm, ValueForm, Variable,
};
use p10_int::IntType;
use std::alloc::{AllocError, Global};

/// Puts a violation of a row after the others, where the row holds.
pub(crate) fn put_if(
    sub: Sub,
    holds: bool,
    span: Span,
    found: &mut Vec<Violation>,
) -> Result<(), AllocError>
    ensures { IfOk result (λ _. found.new.items ≡ found.old.items ++ violation_where sub holds span) }
{
    if holds {
        found.push(Violation { sub, span })?;
    }
    Ok(())
}

/// Whether a type is `_Bool`.
fn is_truth(t: &CType) -> bool
    ensures { result ≡ is_truth (plain_type t.now) }
{
    match t.form {
        TypeForm::Int(IntType::Bool) => true,
        _ => false,
    }
}

/// Whether a form of value is a call.
fn is_call_form(form: &ValueForm) -> bool
    ensures { result ≡ is_call_form (plain_form form.now) }
{
    match form {
        ValueForm::Call(_, _, _) | ValueForm::Builtin(_, _, _) => true,
        ValueForm::Const(_)
        | ValueForm::Read(_)
        | ValueForm::Sense(_)
        | ValueForm::Addr(_)
        | ValueForm::Decay(_)
        | ValueForm::Convert(_)
        | ValueForm::Cast(_)
        | ValueForm::Unary(_, _)
        | ValueForm::Binary(_, _, _)
        | ValueForm::Logic(_, _, _)
        | ValueForm::Cond(_, _, _) => false,
    }
}

/// Whether a statement is a call with a result.
fn drops_result(s: &Stmt) -> bool
    ensures { result ≡ drops_result (plain_statement s.now) }
{
    match &s.form {
        StmtForm::Value(value) => is_call_form(&value.form) && !value.ty.is_void(),
        StmtForm::Set(_, _)
        | StmtForm::Update(_, _, _, _, _)
        | StmtForm::Copy(_, _)
        | StmtForm::Assert(_, _)
        | StmtForm::Declare(_, _)
        | StmtForm::Static(_)
        | StmtForm::Block(_)
        | StmtForm::If(_, _, _)
        | StmtForm::Loop(_, _, _, _, _)
        | StmtForm::Switch(_, _, _, _)
        | StmtForm::Break
        | StmtForm::Continue
        | StmtForm::Return(_, _)
        | StmtForm::Empty
        | StmtForm::Mark(_) => false,
    }
}

/// Puts the violations of 7.1 by a node after the others.
fn put_dropped(node: Node<'_>, found: &mut Vec<Violation>) -> Result<(), AllocError>
    ensures { IfOk result (λ _. found.new.items ≡ found.old.items ++ dropped_by (plain_node node.entry)) }
{
    match node {
        Node::Stmt(s) => put_if(Sub { rule: 7, sub: 1 }, drops_result(s), s.at.span, found),
        Node::Value(_) | Node::Place(_) => Ok(()),
    }
}

/// Puts the violations of 7.1 in a function after the others.
pub(crate) fn put_results(
    alloc: Global,
    f: &Func<'_>,
    found: &mut Vec<Violation>,
) -> Result<(), AllocError>
    ensures { IfOk result (λ _. found.new.items ≡ found.old.items ++ flat_map dropped_by (nodes_of_statements (plain_function f.now).body)) }
{
    let mut nodes = Nodes::of_statements(alloc, f.body.as_slice())?;
    while let Some(node) = nodes.next()? {
        put_dropped(node, found)?;
    }
    Ok(())
}

/// Whether there is an occurrence, and the first isn't checked.
fn starts_unchecked(spread: Option<Spread>) -> bool
    ensures { result ≡ starts_unchecked spread }
{
    match spread {
        Some(spread) => !spread.checked,
        None => false,
    }
}

/// Puts the violations of 7.2 by a parameter after the others.
fn put_parameter(
    v: &Variable<'_>,
    spread: Option<Spread>,
    found: &mut Vec<Violation>,
) -> Result<(), AllocError>
    ensures { IfOk result (λ _. found.new.items ≡ found.old.items ++ violation_where (row 7 2) (not (is_truth (plain_variable v.now).type) && starts_unchecked spread) v.now.span) }
{
    put_if(
        Sub { rule: 7, sub: 2 },
        !is_truth(&v.ty) && starts_unchecked(spread),
        v.span,
        found,
    )
}

/// Puts the violations of 7.2 by parameters after the others, where the occurrences of each lie as is said.
pub(crate) fn put_parameters(
    parameters: &[Variable<'_>],
    spreads: &[Option<Spread>],
    found: &mut Vec<Violation>,
) -> Result<(), AllocError>
    requires { length parameters.now ≤ length spreads.now }
    ensures { IfOk result (λ _. found.new.items ≡ found.old.items ++ unchecked_among (map plain_variable parameters.now) spreads.now) }
{
    let mut place = 0;
    while place < parameters.len() {
        put_parameter(&parameters[place], spreads[place], found)?;
        place += 1;
    }
    Ok(())
}
