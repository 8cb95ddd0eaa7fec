//! Cycles of a graph, by the numbers of its components.

ghost use Rattle.std.specs.Prelude.{◌<◌, ◌↔◌, IsTrue, length};
ghost use Rattle.p10_graph.specs.Graphs.{IsOnCycle};
ghost use Rattle.p10_graph.specs.Components.{AreComponents};

use crate::Graph;

/// Whether a node lies on a cycle, one edge from a node to itself included.
///
/// The numbers are those that [`components`](crate::components) gives for the graph. The time is that
/// of going over the node's edges once.
pub fn is_on_cycle(graph: &Graph, numbers: &[u32], node: u32) -> bool
    requires numbers { AreComponents graph.now numbers.now }
    requires node { node < length graph.now }
    ensures { IsTrue result ↔ IsOnCycle graph.now node }
{
    let own = numbers[node as usize];
    for next in graph.successors(node) {
        if numbers[*next as usize] == own {
            return true;
        }
    }
    false
}
