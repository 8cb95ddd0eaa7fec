//! Which functions allocate or free memory, themselves or in what they call: those that are in the component of the memory, in the
//! graph of calls with one node more.

ghost use Rattle.std.specs.Prelude.{◌≡◌, ◌+◌, ◌-◌, ◌<◌, ◌++◌, ◌&&◌, IfOk, OnOk, length, map, nat_eq, nat_lt, slice_index};
ghost use Rattle.std.specs.List.{All, list_any};
ghost use Rattle.p10_core.specs.Views.{plain_function, plain_program};
ghost use Rattle.p10_flowrules.specs.private.MemoryGraphs.{TellsAllocating, TellsMemory, back_edges, edges_from, edges_to, has_memory, has_memory_number, memory_edge, memory_edges};

use crate::calls::{Called, has_memory_call};
use p10_calls::call_graph;
use p10_core::{Func, Program, manages_memory};
use p10_graph::{Graph, components};
use std::alloc::{AllocError, Global};

/// Numbers that tell which functions of a program allocate or free. Where none does so itself there are none: then there is nothing to reach.
pub(crate) fn numbers_told(alloc: Global, program: &Program<'_>) -> Result<Vec<u32>, AllocError>
    ensures { IfOk result (λ numbers. TellsMemory (plain_program program.now) numbers.items) }
{
    let some = some_has_memory(alloc, program.functions.as_slice())?;
    if some {
        return memory_numbers(alloc, program);
    }
    Ok(Vec::new(alloc))
}

/// Whether one of some functions allocates or frees itself.
fn some_has_memory(alloc: Global, functions: &[Func<'_>]) -> Result<bool, AllocError>
    ensures { IfOk result (λ some. some ≡ list_any has_memory (map plain_function functions.now)) }
{
    let mut functions = functions;
    while let [function, others @ ..] = functions {
        if has_memory_call(alloc, function.body.as_slice())? {
            return Ok(true);
        }
        functions = others;
    }
    Ok(false)
}

/// Numbers of a program's functions, and after them that of the memory, which those that allocate or free have.
fn memory_numbers(alloc: Global, program: &Program<'_>) -> Result<Vec<u32>, AllocError>
    ensures { IfOk result (λ numbers. TellsAllocating (plain_program program.now) numbers.items) }
{
    let calls = call_graph(alloc, program)?;
    let memory = calls.count();
    // A graph counts its nodes in 32 bits. That many functions never fit memory, and are answered as out of memory.
    if memory == u32::MAX {
        return Err(AllocError);
    }
    let edges = edges_with_memory(alloc, &calls, program.functions.as_slice())?;
    let graph = Graph::of(alloc, memory + 1, edges.as_slice())?;
    components(alloc, &graph)
}

/// The edges of the graph of calls, and those of the memory.
fn edges_with_memory(
    alloc: Global,
    calls: &Graph,
    functions: &[Func<'_>],
) -> Result<Vec<(u32, u32)>, AllocError>
    requires { length functions.now ≡ length calls.now }
    ensures value { IfOk result (λ edges. edges.items ≡ (edges_from 0 calls.now ++ memory_edges (length calls.now) 0 (map plain_function functions.now)) ++ back_edges (length calls.now) (length calls.now)) }
    ensures held { IfOk result (λ edges. All (λ edge. (edge.0 < length calls.now + 1) × (edge.1 < length calls.now + 1)) edges.items) }
{
    let mut edges = Vec::new(alloc);
    let memory = calls.count();
    push_calls(calls, &mut edges)?;
    push_memory(alloc, functions, memory, &mut edges)?;
    push_back(memory, &mut edges)?;
    Ok(edges)
}

/// Puts the edges of a graph after the others.
fn push_calls(calls: &Graph, edges: &mut Vec<(u32, u32)>) -> Result<(), AllocError>
    ensures { OnOk result (edges.new.items ≡ edges.old.items ++ edges_from 0 calls.now) }
{
    for node in 0..calls.count() {
        push_row(node, calls.successors(node), edges)?;
    }
    Ok(())
}

/// Puts the edges from a node to nodes after the others.
fn push_row(node: u32, row: &[u32], edges: &mut Vec<(u32, u32)>) -> Result<(), AllocError>
    ensures { OnOk result (edges.new.items ≡ edges.old.items ++ edges_to node row.now) }
{
    for next in row {
        edges.push((node, *next))?;
    }
    Ok(())
}

/// Puts the edges from functions to the memory after the others.
fn push_memory(
    alloc: Global,
    functions: &[Func<'_>],
    memory: u32,
    edges: &mut Vec<(u32, u32)>,
) -> Result<(), AllocError>
    requires { length functions.now ≡ memory }
    ensures { OnOk result (edges.new.items ≡ edges.old.items ++ memory_edges memory 0 (map plain_function functions.now)) }
{
    for number in 0..memory {
        let itself = has_memory_call(alloc, functions[number as usize].body.as_slice())?;
        push_memory_edge(number, memory, itself, edges)?;
    }
    Ok(())
}

/// Puts the edge from a function to the memory, if it allocates or frees itself.
fn push_memory_edge(
    number: u32,
    memory: u32,
    itself: bool,
    edges: &mut Vec<(u32, u32)>,
) -> Result<(), AllocError>
    ensures { OnOk result (edges.new.items ≡ edges.old.items ++ memory_edge memory number itself) }
{
    if itself {
        edges.push((number, memory))?;
    }
    Ok(())
}

/// Puts the edges from the memory to the nodes below it after the others.
fn push_back(memory: u32, edges: &mut Vec<(u32, u32)>) -> Result<(), AllocError>
    ensures { OnOk result (edges.new.items ≡ edges.old.items ++ back_edges memory memory) }
{
    let mut left = memory;
    while left > 0 {
        left -= 1;
        edges.push((memory, left))?;
    }
    Ok(())
}

/// Whether what is called has the number of the memory, or is an allocation or `free` of the library.
pub(crate) fn has_memory_number(numbers: &[u32], called: Called) -> bool
    ensures { result ≡ has_memory_number numbers.now called }
{
    match called {
        Called::Function(function) => has_last_number(numbers, function as usize),
        Called::Library(function) => manages_memory(function),
    }
}

/// Whether a place before the last has the number of the last.
fn has_last_number(numbers: &[u32], place: usize) -> bool
    ensures { result ≡ nat_lt (place + 1) (length numbers.now) && nat_eq (slice_index numbers.now place) (slice_index numbers.now (length numbers.now - 1)) }
{
    if place < numbers.len() && place + 1 < numbers.len() {
        numbers[place] == numbers[numbers.len() - 1]
    } else {
        false
    }
}
