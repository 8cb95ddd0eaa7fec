//! Ranks along the numbers of strongly connected components: where no call lies on a cycle each function has a number of its own,
//! and calls lead to smaller ones.

ghost use Rattle.std.specs.Prelude.{◌≡◌, ◌+◌, ◌<◌, ◌^◌, ℕ, IfOk, length, max, slice_index};
ghost use Rattle.std.specs.List.{All};
ghost use Rattle.p10_calls.specs.Ranks.{AreRanks};
ghost use Rattle.p10_calls.specs.private.Numbering.{AreRankedBelow, Descends, FindsByNumber, IsRankAbove};

use p10_graph::Graph;
use std::alloc::{AllocError, Global};

/// The ranks of the nodes of a graph, along numbers that descend.
pub(crate) fn ranks_along(
    alloc: Global,
    graph: &Graph,
    numbers: &[u32],
) -> Result<Vec<u32>, AllocError>
    requires descends { Descends graph.now numbers.now }
    requires few { length graph.now < 2 ^ 32 }
    ensures { IfOk result (λ ranks. AreRanks graph.now ranks.items) }
{
    let count = numbers.len();
    let nodes = nodes_by_number(alloc, numbers)?;
    let mut ranks = vec![in alloc; 0u32; count]?;
    for number in 0..count {
        rank_node(graph, numbers, nodes[number], number, &mut ranks);
    }
    Ok(ranks)
}

/// The node with each number, and node 0 where there is none.
fn nodes_by_number(alloc: Global, numbers: &[u32]) -> Result<Vec<u32>, AllocError>
    requires few { length numbers.now < 2 ^ 32 }
    requires below { (u : ℕ) → u < length numbers.now → slice_index numbers.now u < length numbers.now }
    requires apart { (u v : ℕ) → u < length numbers.now → v < length numbers.now → slice_index numbers.now u ≡ slice_index numbers.now v → u ≡ v }
    ensures { IfOk result (λ nodes. FindsByNumber numbers.now nodes.items) }
{
    let count = numbers.len();
    let mut nodes = vec![in alloc; 0u32; count]?;
    for node in 0..count {
        nodes[numbers[node] as usize] = node as u32;
    }
    Ok(nodes)
}

/// Gives a node its rank, if it has the number before which all have theirs.
fn rank_node(graph: &Graph, numbers: &[u32], node: u32, number: usize, ranks: &mut Vec<u32>)
    requires descends { Descends graph.now numbers.now }
    requires few { length graph.now < 2 ^ 32 }
    requires there { node < length graph.now }
    requires only { (u : ℕ) → u < length graph.now → slice_index numbers.now u ≡ number → u ≡ node }
    requires ranked { AreRankedBelow graph.now numbers.now ranks.old.items number }
    ensures { AreRankedBelow graph.now numbers.now ranks.new.items (number + 1) }
{
    if numbers[node as usize] as usize == number {
        let rank = rank_above(ranks.as_slice(), graph.successors(node));
        ranks[node as usize] = rank;
    }
}

/// One more than the greatest rank of nodes, or 0 where there are none.
fn rank_above(ranks: &[u32], nodes: &[u32]) -> u32
    requires there { All (λ v. v < length ranks.now) nodes.now }
    requires room { All (λ v. slice_index ranks.now v + 1 < 2 ^ 32) nodes.now }
    ensures { IsRankAbove ranks.now nodes.now result }
{
    let mut rank = 0;
    for node in nodes {
        rank = greater(rank, ranks[*node as usize] + 1);
    }
    rank
}

/// The greater of two numbers.
fn greater(a: u32, b: u32) -> u32
    ensures { result ≡ max a b }
{
    if a < b { b } else { a }
}
