//! The graph of calls.

ghost use Rattle.std.specs.Prelude.{◌≡◌, ◌<◌, ◌++◌, ◌↔◌, ℕ, IfOk, OnOk, length};
ghost use Rattle.std.specs.Option.{option_to_list};
ghost use Rattle.std.specs.List.{All, filter_map};
ghost use Rattle.p10_core.specs.Views.{plain_program};
ghost use Rattle.p10_graph.specs.Graphs.{Edge};
ghost use Rattle.p10_calls.specs.CallGraphs.{call_graph};
ghost use Rattle.p10_calls.specs.private.Numbering.{HasEdgesOf, edge_of};

use crate::sites::{CallSite, call_sites};
use p10_core::Program;
use p10_graph::Graph;
use std::alloc::{AllocError, Global};

/// The graph in which an edge leads from each function to each that it calls, a node for each function in order. It fails only where
/// memory runs out; 2^32 functions count as that, too.
pub fn call_graph(alloc: Global, program: &Program<'_>) -> Result<Graph, AllocError>
    ensures count { IfOk result (λ graph. length graph ≡ length program.now.functions) }
    ensures edges { IfOk result (λ graph. (u v : ℕ) → Edge graph u v ↔ Edge (call_graph (plain_program program.now)) u v) }
{
    let sites = call_sites(alloc, program)?;
    graph_of(alloc, sites.as_slice(), program.functions.as_slice().len())
}

/// The graph of these calls, over `count` functions.
pub(crate) fn graph_of(alloc: Global, sites: &[CallSite], count: usize) -> Result<Graph, AllocError>
    ensures { IfOk result (HasEdgesOf sites.now count) }
{
    // A graph counts its nodes in 32 bits. That many functions never fit memory, and are answered as out of memory.
    if count > u32::MAX as usize {
        return Err(AllocError);
    }
    let edges = edges_of(alloc, sites, count as u32)?;
    Graph::of(alloc, count as u32, edges.as_slice())
}

/// The edges of calls, over `count` functions.
fn edges_of(alloc: Global, sites: &[CallSite], count: u32) -> Result<Vec<(u32, u32)>, AllocError>
    ensures value { IfOk result (λ edges. edges.items ≡ filter_map (edge_of count) sites.now) }
    ensures held { IfOk result (λ edges. All (λ edge. (edge.0 < count) × (edge.1 < count)) edges.items) }
{
    let mut edges = Vec::new(alloc);
    for site in sites {
        push_edge(site, count, &mut edges)?;
    }
    Ok(edges)
}

/// Puts the edge of a call after the others, if it has one.
fn push_edge(site: &CallSite, count: u32, edges: &mut Vec<(u32, u32)>) -> Result<(), AllocError>
    ensures { OnOk result (edges.new.items ≡ edges.old.items ++ option_to_list (edge_of count site.now)) }
{
    if let Some(edge) = edge_of(site, count) {
        edges.push(edge)?;
    }
    Ok(())
}

/// The edge of a call, if it names two of `count` functions.
fn edge_of(site: &CallSite, count: u32) -> Option<(u32, u32)>
    ensures { result ≡ edge_of count site.now }
{
    if site.caller < count && site.call.function < count {
        Some((site.caller, site.call.function))
    } else {
        None
    }
}
