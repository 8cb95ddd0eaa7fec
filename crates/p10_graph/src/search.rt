//! The strongly connected components of a graph, by one depth-first search that keeps a path of groups
//! (Gabow 2000, "Path-based depth-first search for strong and biconnected components").
//!
//! The nodes that were seen and have no component yet are *open*. They stand in the order in which they
//! were seen, cut into groups. The nodes of a group reach each other, and each group reaches the groups
//! after it. Where an edge leads from the last group back into an earlier one, all groups from there
//! on become one. Where every edge of the last group was looked at, the group is a component.

ghost use Rattle.std.specs.Prelude.{◌≡◌, ◌≤◌, IfOk, length, map};
ghost use Rattle.p10_graph.specs.Components.{AreComponents};
ghost use Rattle.p10_graph.specs.private.Searching.{Agree, closing, number_at};

use crate::Graph;
use crate::stack::{pop, push, top};
use std::alloc::{AllocError, Global};

/// How far the search has come with a node.
#[derive(Clone, Copy)]
enum Mark {
    /// It wasn't seen.
    Unseen,
    /// It is open, and stands at this place among the open nodes.
    Open(usize),
    /// It is in the component of this number.
    Closed(u32),
}

/// The state of the search.
#[derive(Drop)]
struct Search {
    /// The mark of each node.
    marks: Vec<Mark>,
    /// For each node, how many of its edges are done: they lead to closed nodes, or to open ones of the
    /// node's own group.
    done: Vec<usize>,
    /// The open nodes, in the order in which they were seen.
    open_nodes: Vec<u32>,
    /// The places among the open nodes where the groups begin, the last group on top.
    groups: Vec<usize>,
    /// The places of the open nodes with edges that aren't done, in order, the last one on top.
    unfinished: Vec<usize>,
    /// How many components were closed.
    closed: u32,
    /// Every node below this one was seen.
    covered: u32,
}

/// The number of the strongly connected component of each node, in the order of the nodes.
///
/// Two nodes have one number exactly where they reach each other, and an edge never leads to a greater
/// number. The time is linear in nodes and edges. It fails only where memory runs out.
pub fn components(alloc: Global, graph: &Graph) -> Result<Vec<u32>, AllocError>
    ensures { IfOk result (λ numbers. AreComponents graph.now numbers.items) }
{
    let mut search = Search::new(alloc, graph)?;
    for _ in 0..graph.count() {
        search.cover(graph)?;
    }
    search.numbers(alloc)
}

impl Search {
    ghost use Rattle.std.specs.Prelude.{◌≡◌, ◌<◌, ◌≤◌, ◌+◌, ◌^◌, [], length, map, slice_get, IfOk, OnOk};
    ghost use Rattle.p10_graph.specs.private.Searching.{Agree, IsSearch, IsStep, done_of, number_at, finished, merged, opened, settled, state_of, visited, with_component};

    /// No node was seen.
    fn new(alloc: Global, graph: &Graph) -> Result<Search, AllocError>
        ensures keeps { IfOk result (λ search. IsSearch graph.now (state_of search)) }
        ensures none { IfOk result (λ search. search.open_nodes.items ≡ []) }
        ensures covered { IfOk result (λ search. search.covered ≡ 0) }
    {
        let mut marks = Vec::new(alloc);
        let mut done = Vec::new(alloc);
        for _ in 0..graph.count() {
            marks.push(Mark::Unseen)?;
            done.push(0)?;
        }
        Ok(Search {
            marks,
            done,
            open_nodes: Vec::new(alloc),
            groups: Vec::new(alloc),
            unfinished: Vec::new(alloc),
            closed: 0,
            covered: 0,
        })
    }

    /// Closes the next node and all that it reaches. No node is open before or after.
    fn cover(&mut self, graph: &Graph) -> Result<(), AllocError>
        requires keeps { IsSearch graph.now (state_of self.old) }
        requires none { self.old.open_nodes.items ≡ [] }
        requires left { self.old.covered < length graph.now }
        ensures keeps { OnOk result (IsSearch graph.now (state_of self.new)) }
        ensures none { OnOk result (self.new.open_nodes.items ≡ []) }
        ensures covered { OnOk result (self.new.covered ≡ self.old.covered + 1) }
    {
        self.open_next()?;
        while let Some(start) = top(&self.groups) {
            self.step(graph, start)?;
        }
        Ok(())
    }

    /// Opens the next node, if it wasn't seen.
    fn open_next(&mut self) -> Result<(), AllocError>
        requires left { self.old.covered < length self.old.marks.items }
        requires room { self.old.covered + 1 < 2 ^ 32 }
        ensures { OnOk result (state_of self.new ≡ opened (state_of self.old)) }
    {
        if let Mark::Unseen = self.marks[self.covered as usize] {
            self.visit(self.covered)?;
        }
        self.covered += 1;
        Ok(())
    }

    /// Takes one step at the last group, which begins at `start`: closes it, or goes on with its last
    /// node that isn't finished.
    fn step(&mut self, graph: &Graph, start: usize) -> Result<(), AllocError>
        requires keeps { IsSearch graph.now (state_of self.old) }
        requires last { slice_get (state_of self.old).groups 0 ≡ Some start }
        ensures { OnOk result (IsStep graph.now (state_of self.old) (state_of self.new)) }
    {
        match top(&self.unfinished) {
            Some(place) if start <= place => self.advance(graph, start, place),
            _ => {
                self.close(start);
                Ok(())
            }
        }
    }

    /// Looks at the next edge of the node at `place`, the last one that isn't finished, in the last group,
    /// which begins at `start`.
    fn advance(&mut self, graph: &Graph, start: usize, place: usize) -> Result<(), AllocError>
        requires keeps { IsSearch graph.now (state_of self.old) }
        requires last { slice_get (state_of self.old).groups 0 ≡ Some start }
        requires unfinished { slice_get (state_of self.old).unfinished 0 ≡ Some place }
        requires within { start ≤ place }
        ensures { OnOk result (IsStep graph.now (state_of self.old) (state_of self.new)) }
    {
        let node = self.open_nodes[place];
        match graph.successors(node).get(self.done[node as usize]) {
            None => {
                self.finish();
                Ok(())
            }
            Some(end) => match self.marks[*end as usize] {
                Mark::Unseen => self.visit(*end),
                Mark::Open(at) if at < start => {
                    self.merge();
                    Ok(())
                }
                _ => {
                    self.settle(node);
                    Ok(())
                }
            },
        }
    }

    /// Opens a node, as a group of its own.
    fn visit(&mut self, node: u32) -> Result<(), AllocError>
        requires { node < length self.old.marks.items }
        ensures { OnOk result (state_of self.new ≡ visited (state_of self.old) node) }
    {
        let place = self.open_nodes.len();
        self.open_nodes.push(node)?;
        push(&mut self.groups, place)?;
        push(&mut self.unfinished, place)?;
        self.marks[node as usize] = Mark::Open(place);
        Ok(())
    }

    /// Takes the last node that isn't finished from those.
    fn finish(&mut self)
        ensures { state_of self.new ≡ finished (state_of self.old) }
    {
        pop(&mut self.unfinished);
    }

    /// Makes the last two groups one.
    fn merge(&mut self)
        ensures { state_of self.new ≡ merged (state_of self.old) }
    {
        pop(&mut self.groups);
    }

    /// The next edge of a node is done.
    fn settle(&mut self, node: u32)
        requires node { node < length self.old.done.items }
        requires room { done_of self.old.done.items node + 1 < 2 ^ 64 }
        ensures { state_of self.new ≡ settled (state_of self.old) node }
    {
        self.done[node as usize] += 1;
    }

    /// Makes the last group, which begins at `start`, the next component.
    fn close(&mut self, start: usize)
        requires agree { Agree self.old.marks.items self.old.open_nodes.items }
        requires start { start ≤ length self.old.open_nodes.items }
        requires room { self.old.closed + 1 < 2 ^ 32 }
        ensures { state_of self.new ≡ with_component (state_of self.old) start }
    {
        close_nodes(
            self.marks.as_mut_slice(),
            self.open_nodes.as_slice(),
            start,
            self.closed,
        );
        self.open_nodes.truncate(start);
        pop(&mut self.groups);
        self.closed += 1;
    }

    /// The numbers of the components, once every node is closed.
    fn numbers(&self, alloc: Global) -> Result<Vec<u32>, AllocError>
        ensures { IfOk result (λ numbers. numbers.items ≡ map number_at self.now.marks.items) }
    {
        let mut numbers = Vec::new(alloc);
        for mark in &self.marks {
            numbers.push(number_of(*mark))?;
        }
        Ok(numbers)
    }
}

/// Closes the open nodes from a place on, with a component's number.
fn close_nodes(marks: &mut [Mark], open_nodes: &[u32], start: usize, number: u32)
    requires agree { Agree marks.old open_nodes.now }
    requires start { start ≤ length open_nodes.now }
    ensures { marks.new ≡ map (closing start number) marks.old }
{
    for node in &open_nodes[start..] {
        marks[*node as usize] = Mark::Closed(number);
    }
}

/// The number of a closed node's component.
fn number_of(mark: Mark) -> u32
    ensures { result ≡ number_at mark }
{
    match mark {
        Mark::Closed(number) => number,
        _ => 0,
    }
}
