//! The calls of a program, and its functions in an order in which each that lies on no cycle of calls comes after those that it calls.

ghost use Rattle.std.specs.Prelude.{◌<◌, ◌^◌, ℕ, length, slice_index, IfOk};
ghost use Rattle.p10_finder.specs.private.Visiting.{FindsLone};

use p10_core::Program;
use p10_graph::Graph;
use std::alloc::{AllocError, Global};

/// A program with its graph of calls and the numbers of the graph's components.
#[derive(Clone, Copy)]
pub(crate) struct Calls<'a, 's> {
    pub program: &'a Program<'s>,
    pub graph: &'a Graph,
    pub numbers: &'a [u32],
    /// Whether variables that approach each other may bound turns.
    pub approaching: bool,
}

/// The last node with each number, and node 0 where there is none.
pub(crate) fn nodes_by_number(alloc: Global, numbers: &[u32]) -> Result<Vec<u32>, AllocError>
    requires few { length numbers.now < 2 ^ 32 }
    requires below { (u : ℕ) → u < length numbers.now → slice_index numbers.now u < length numbers.now }
    ensures { IfOk result (λ nodes. FindsLone numbers.now nodes.items (length numbers.now)) }
{
    let count = numbers.len();
    let mut nodes = vec![in alloc; 0u32; count]?;
    for node in 0..count {
        nodes[numbers[node] as usize] = node as u32;
    }
    Ok(nodes)
}
