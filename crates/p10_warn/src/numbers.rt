//! The numbers of what nodes name.

ghost use Rattle.std.specs.Prelude.{◌≡◌, ◌++◌, IfOk, option_to_list};
ghost use Rattle.std.specs.List.{filter_map};
ghost use Rattle.p10_core.specs.Views.{plain_place_form};
ghost use Rattle.p10_core.specs.Walks.{plain_node, left_in};
ghost use Rattle.p10_warn.specs.Naming.{named_variable, variable_of_form};
ghost use Rattle.p10_warn.specs.private.Numbers.{number_named};

use crate::number_set::NumberSet;
use p10_core::{Node, Nodes, PlaceForm};
use std::alloc::{AllocError, Global};

/// A kind of what nodes name.
#[derive(Clone, Copy)]
pub(crate) enum Named {
    /// A variable of the function.
    Variable,
    /// An object of static lifetime.
    Object,
    /// A function.
    Function,
}

/// The numbers of this kind that nodes name. It goes over all nodes.
pub(crate) fn numbers_named(
    alloc: Global,
    kind: Named,
    nodes: &mut Nodes<'_>,
) -> Result<NumberSet, AllocError>
    ensures { IfOk result (λ set. set.list.items ≡ filter_map (number_named kind) (left_in nodes.old)) }
{
    let mut found = Vec::new(alloc);
    while let Some(node) = nodes.next()? {
        note(number_named(kind, node), &mut found)?;
    }
    NumberSet::of(alloc, found)
}

/// Notes a number, if there is one.
fn note(number: Option<u32>, found: &mut Vec<u32>) -> Result<(), AllocError>
    ensures { IfOk result (λ _. found.new.items ≡ found.old.items ++ option_to_list number) }
{
    if let Some(number) = number {
        found.push(number)?;
    }
    Ok(())
}

/// The number of this kind that a node names.
fn number_named(kind: Named, node: Node<'_>) -> Option<u32>
    ensures { result ≡ number_named kind (plain_node node.entry) }
{
    match kind {
        Named::Variable => named_variable(node),
        Named::Object => match node.object_used() {
            Some(used) => Some(used.object),
            None => None,
        },
        Named::Function => match node.function_used() {
            Some(used) => Some(used.function),
            None => None,
        },
    }
}

/// The number of the variable that a node names.
fn named_variable(node: Node<'_>) -> Option<u32>
    ensures { result ≡ named_variable (plain_node node.entry) }
{
    match node {
        Node::Place(place) => variable_of_form(&place.form),
        Node::Stmt(_) | Node::Value(_) => None,
    }
}

/// The number of the variable that a form of place is.
fn variable_of_form(form: &PlaceForm) -> Option<u32>
    ensures { result ≡ variable_of_form (plain_place_form form.now) }
{
    match form {
        PlaceForm::Var(number) => Some(*number),
        PlaceForm::Global(_)
        | PlaceForm::Literal(_, _)
        | PlaceForm::Index(_, _)
        | PlaceForm::Member(_, _)
        | PlaceForm::Deref(_) => None,
    }
}
