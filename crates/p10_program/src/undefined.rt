//! Names that are used and not defined.

ghost use Rattle.std.specs.Prelude.{◌≡◌, None, IfOk};
ghost use Rattle.p10_core.specs.Uses.{function_used, object_used};
ghost use Rattle.p10_core.specs.Walks.{plain_node, left_in};
ghost use Rattle.p10_elabx.specs.First.{problems};
ghost use Rattle.p10_program.specs.Undefined.{name_of_call, undefined_among};
ghost use Rattle.p10_program.specs.FirstProblems.{first_with};
ghost use Rattle.p10_program.specs.private.Using.{called_undefined, object_undefined, use_undefined};

use crate::earliest::first_with;
use p10_base::{At, Span, SubsetCode};
use p10_core::{FunctionUse, Node, Nodes, ObjectUse};
use p10_elabx::Problem;
use std::alloc::AllocError;

/// The place of a call's name: it begins where the call does. A call that begins with the last word that has a number is answered as
/// out of memory.
pub(crate) fn name_of_call(at: At, span: Span) -> Result<At, AllocError>
    ensures { IfOk result (λ name. name ≡ name_of_call at span) }
{
    let first = at.first;
    if first == u32::MAX {
        return Err(AllocError);
    }
    Ok(At {
        first,
        past: first + 1,
        span,
    })
}

/// The call of a function that isn't defined: its number is past those that are.
fn called_undefined(functions: usize, used: FunctionUse) -> Result<Option<Problem>, AllocError>
    ensures { IfOk result (λ found. problems found ≡ called_undefined functions used) }
{
    if (used.function as usize) < functions {
        return Ok(None);
    }
    let at = name_of_call(used.at, used.name)?;
    Ok(Some(Problem {
        code: SubsetCode::NotDefined,
        at,
    }))
}

/// The use of an object that isn't defined: its number is past those that are.
fn object_undefined(objects: usize, used: ObjectUse) -> Option<Problem>
    ensures { problems result ≡ object_undefined objects used }
{
    if (used.object as usize) < objects {
        return None;
    }
    Some(Problem {
        code: SubsetCode::NotDefined,
        at: used.at,
    })
}

/// What a node uses that isn't defined.
fn use_undefined(
    functions: usize,
    objects: usize,
    node: Node<'_>,
) -> Result<Option<Problem>, AllocError>
    ensures { IfOk result (λ found. problems found ≡ use_undefined functions objects (function_used (plain_node node.entry)) (object_used (plain_node node.entry))) }
{
    match node.function_used() {
        Some(used) => called_undefined(functions, used),
        None => match node.object_used() {
            Some(used) => Ok(object_undefined(objects, used)),
            None => Ok(None),
        },
    }
}

/// The first use of a function or object that isn't defined, among nodes, where those that are defined have the numbers below
/// `functions` and `objects` (row S27 of the subset). It goes over all nodes.
pub fn first_undefined(
    functions: usize,
    objects: usize,
    nodes: &mut Nodes<'_>,
) -> Result<Option<Problem>, AllocError>
    ensures { IfOk result (λ found. found ≡ first_with None (undefined_among functions objects (left_in nodes.old))) }
{
    let mut found = None;
    while let Some(node) = nodes.next()? {
        let problem = use_undefined(functions, objects, node)?;
        found = first_with(found, problem);
    }
    Ok(found)
}
