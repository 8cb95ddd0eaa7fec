//! Directed graphs, and their strongly connected components in linear time.
//!
//! Entry points: [`Graph`], which is built edge by edge, [`components`], which numbers the strongly
//! connected components of a graph, and [`is_on_cycle`], which answers by these numbers whether a node
//! lies on a cycle. Invariant: every edge of a `Graph` leads from one of its nodes to one of its nodes.
//! What nodes stand for is left to the crates above: functions and calls, or macros and the names in
//! their lists.
#![tactic(auto)]

mod cycle;
mod graph;
pub mod laws;
mod search;
mod stack;

pub use cycle::is_on_cycle;
pub use graph::Graph;
pub use search::components;
