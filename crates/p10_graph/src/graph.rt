//! Directed graphs: nodes from 0 on, and edges from one to another.

use std::alloc::{AllocError, Global};
use std::marker::Model;

/// A directed graph: the nodes from 0 to its count less 1, and edges from one node to another.
///
/// Contracts see, for each node in order, the list of the nodes to which its edges lead. An edge may be
/// there more than once, and a node may have an edge to itself.
#[derive(Debug, Drop)]
pub struct Graph {
    successors: Vec<Vec<u32>>,
}

impl Model for Graph {
    ghost use Rattle.std.specs.Prelude.{List, ℕ, map};
    ghost use Rattle.p10_graph.specs.Graphs.{IsGraph};

    ghost Value = { List (List ℕ) };

    ghost view = { λ g. map (λ row. row.items) g.successors.items };

    ghost invariant = { λ g. IsGraph (map (λ row. row.items) g.successors.items) };
}

impl Graph {
    ghost use Rattle.std.specs.Prelude.{◌≡◌, ℕ, ◌<◌, ◌↔◌, ◌⊎◌, ◌++◌, ◌∷◌, [], length, replicate, slice_index_or, slice_set, IfOk, OnOk, OnErr};
    ghost use Rattle.std.specs.List.{All, Contains};
    ghost use Rattle.p10_graph.specs.Graphs.{Edge, IsGraph};

    /// The graph of `count` nodes without edges. It fails only where memory runs out.
    pub fn new(alloc: Global, count: u32) -> Result<Graph, AllocError>
        ensures { IfOk result (λ graph. graph ≡ replicate count []) }
    {
        let mut successors = Vec::new(alloc);
        for _ in 0..count {
            successors.push(Vec::new(alloc))?;
        }
        Ok(Graph { successors })
    }

    /// The graph of `count` nodes with these edges, each from its first node to its second. It fails only
    /// where memory runs out.
    pub fn of(alloc: Global, count: u32, edges: &[(u32, u32)]) -> Result<Graph, AllocError>
        requires { All (λ edge. (edge.0 < count) × (edge.1 < count)) edges.now }
        ensures count { IfOk result (λ graph. length graph ≡ count) }
        ensures edges { IfOk result (λ graph. (u v : ℕ) → Edge graph u v ↔ Contains edges.now (u, v)) }
    {
        let mut graph = Graph::new(alloc, count)?;
        for edge in edges {
            graph.add_edge(edge.0, edge.1)?;
        }
        Ok(graph)
    }

    /// How many nodes there are.
    pub fn count(&self) -> u32
        ensures count { result ≡ length self.now }
        ensures whole { IsGraph self.now }
    {
        self.successors.len() as u32
    }

    /// The nodes to which the edges of a node lead, in the order in which they were added.
    pub fn successors(&self, node: u32) -> &[u32]
        requires { node < length self.now }
        ensures list { result.now ≡ slice_index_or self.now node [] }
        ensures held { All (λ next. next < length self.now) result.now }
    {
        self.successors[node as usize].as_slice()
    }

    /// Adds an edge from a node to a node. Where memory runs out, nothing is added.
    pub fn add_edge(&mut self, from: u32, to: u32) -> Result<(), AllocError>
        requires from { from < length self.old }
        requires to { to < length self.old }
        ensures ok { OnOk result (self.new ≡ slice_set self.old from (slice_index_or self.old from [] ++ to ∷ [])) }
        ensures edges { OnOk result ((u v : ℕ) → Edge self.new u v ↔ (Edge self.old u v ⊎ ((u ≡ from) × (v ≡ to)))) }
        ensures err { OnErr result (self.new ≡ self.old) }
    {
        let row = &mut self.successors[from as usize];
        row.push(to)?;
        Ok(())
    }
}
