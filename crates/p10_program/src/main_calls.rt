//! What is wrong with `main` (C99 5.1.2.2.1).

ghost use Rattle.std.specs.Prelude.{◌≡◌, ◌++◌, None, Some, IfOk};
ghost use Rattle.p10_core.specs.Uses.{function_used};
ghost use Rattle.p10_core.specs.Walks.{plain_node, left_in};
ghost use Rattle.p10_elabx.specs.First.{problems};
ghost use Rattle.p10_program.specs.Mains.{calls_of_main, missing_main};
ghost use Rattle.p10_program.specs.FirstProblems.{first_with};
ghost use Rattle.p10_program.specs.private.Using.{main_called, main_used};

use crate::earliest::{first_problem, first_with};
use crate::undefined::name_of_call;
use p10_base::SubsetCode;
use p10_core::{FunctionUse, Node, Nodes};
use p10_elabx::Problem;
use p10_syn::nowhere;
use std::alloc::AllocError;

/// A call of `main`, by its number.
fn main_called(main: usize, used: FunctionUse) -> Result<Option<Problem>, AllocError>
    ensures { IfOk result (λ found. problems found ≡ main_called main used) }
{
    if used.function as usize != main {
        return Ok(None);
    }
    let at = name_of_call(used.at, used.name)?;
    Ok(Some(Problem {
        code: SubsetCode::BadMain,
        at,
    }))
}

/// A call of `main`, if a node is one.
fn main_used(main: usize, node: Node<'_>) -> Result<Option<Problem>, AllocError>
    ensures { IfOk result (λ found. problems found ≡ main_used main (function_used (plain_node node.entry))) }
{
    match node.function_used() {
        Some(used) => main_called(main, used),
        None => Ok(None),
    }
}

/// The first of a problem that may be known already and of the calls of `main` among nodes. It goes over all nodes.
fn first_call_of_main(
    main: usize,
    first: Option<Problem>,
    nodes: &mut Nodes<'_>,
) -> Result<Option<Problem>, AllocError>
    ensures { IfOk result (λ found. found ≡ first_with first (calls_of_main (Some main) (left_in nodes.old))) }
{
    let mut found = first;
    while let Some(node) = nodes.next()? {
        let problem = main_used(main, node)?;
        found = first_with(found, problem);
    }
    Ok(found)
}

/// The first problem of `main`, whose number among the functions is given if it is defined: that it is missing, what is wrong with its
/// declarations, or that it is called by one of the nodes (row S28 of the subset). It goes over all nodes, if `main` is there.
pub fn first_of_main(
    main: Option<usize>,
    declared: &[Problem],
    nodes: &mut Nodes<'_>,
) -> Result<Option<Problem>, AllocError>
    ensures { IfOk result (λ found. found ≡ first_with None (missing_main main (declared.now ++ calls_of_main main (left_in nodes.old)))) }
{
    match main {
        None => Ok(Some(first_without_main(declared))),
        Some(main) => first_call_of_main(main, first_problem(declared), nodes),
    }
}

/// The first problem where `main` isn't defined: what is wrong with its declarations, or else that it is missing.
fn first_without_main(declared: &[Problem]) -> Problem
    ensures { Some result ≡ first_with None (missing_main None declared.now) }
{
    match first_problem(declared) {
        Some(problem) => problem,
        None => Problem {
            code: SubsetCode::BadMain,
            at: nowhere(),
        },
    }
}
