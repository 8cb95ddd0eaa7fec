//! Allocations after initialisation.

ghost use Rattle.std.specs.Prelude.{◌≡◌, ◌++◌, ◌∷◌, [], IfOk, OnOk};
ghost use Rattle.std.specs.List.{filter};
ghost use Rattle.p10_core.specs.Nodes.{nodes_of_statements};
ghost use Rattle.p10_core.specs.Views.{plain_program, plain_statements};
ghost use Rattle.p10_core.specs.Walks.{plain_node};
ghost use Rattle.p10_flowrules.specs.Allocating.{AreLateAllocations};
ghost use Rattle.p10_flowrules.specs.AnyCalls.{calls_made};
ghost use Rattle.p10_flowrules.specs.private.MemoryGraphs.{has_memory_number};

use crate::calls::{AnyCall, call_made};
use crate::main_body::late_items;
use crate::memory::{has_memory_number, numbers_told};
use p10_core::{Node, Nodes, Program, Stmt};
use std::alloc::{AllocError, Global};

/// The calls in `main` after the mark `init_done` that are or reach an allocation or `free`, in text order; without a mark, those in
/// all of `main`. It fails only where memory runs out.
pub fn late_allocations(alloc: Global, program: &Program<'_>) -> Result<Vec<AnyCall>, AllocError>
    ensures { IfOk result (λ calls. AreLateAllocations (plain_program program.now) calls.items) }
{
    let numbers = numbers_told(alloc, program)?;
    calls_with_memory(alloc, late_items(program), numbers.as_slice())
}

/// The calls in statements of what has the number of the memory.
fn calls_with_memory(
    alloc: Global,
    body: &[Stmt],
    numbers: &[u32],
) -> Result<Vec<AnyCall>, AllocError>
    ensures { IfOk result (λ calls. calls.items ≡ filter (λ c. has_memory_number numbers.now c.called) (calls_made (nodes_of_statements (plain_statements body.now)))) }
{
    let mut calls = Vec::new(alloc);
    let mut nodes = Nodes::of_statements(alloc, body)?;
    while let Some(node) = nodes.next()? {
        push_call(node, numbers, &mut calls)?;
    }
    Ok(calls)
}

/// Puts a node after the calls, if it is a call of what has the number of the memory.
fn push_call(node: Node<'_>, numbers: &[u32], calls: &mut Vec<AnyCall>) -> Result<(), AllocError>
    ensures { OnOk result (calls.new.items ≡ calls.old.items ++ filter (λ c. has_memory_number numbers.now c.called) (calls_made (plain_node node.entry ∷ []))) }
{
    if let Some(call) = call_made(node) {
        if has_memory_number(numbers, call.called) {
            calls.push(call)?;
        }
    }
    Ok(())
}
