//! The order in which functions can be judged: each after those that it calls.

ghost use Rattle.std.specs.Prelude.{◌≡◌, [], List, IfOk, IfErr, MatchResult, map};
ghost use Rattle.p10_core.specs.Views.{plain_program};
ghost use Rattle.p10_calls.specs.CallGraphs.{call_graph};
ghost use Rattle.p10_calls.specs.Faults.{IsRightFault};
ghost use Rattle.p10_calls.specs.Ranks.{AreRanks};
ghost use Rattle.p10_calls.specs.Recursion.{AreRecursiveCalls};
ghost use Rattle.p10_calls.specs.private.Ordering.{IsOrdered};

use crate::answer::{CallFault, Order, Ordered};
use crate::graph::graph_of;
use crate::ranking::ranks_along;
use crate::recursion::within_components;
use crate::sites::{CallSite, call_sites};
use p10_base::{ListBuf, Span};
use p10_core::Program;
use p10_graph::components;
use std::alloc::{AllocError, Global};

/// The ranks of a program's functions, or the calls on cycles of calls, exactly where there are some.
pub fn order(alloc: Global, program: &Program<'_>) -> Result<Order, CallFault>
    ensures ranks { IfOk result (λ order. AreRanks (call_graph (plain_program program.now)) order.ranks) }
    ensures acyclic { IfOk result (λ _. AreRecursiveCalls (plain_program program.now) []) }
    ensures fault { IfErr result (IsRightFault (plain_program program.now)) }
{
    match ordered(alloc, program) {
        Ok(Ordered::Ranked(ranks)) => Ok(Order { ranks }),
        Ok(Ordered::Cyclic(names)) => Err(CallFault::Cycle(names)),
        Err(_) => Err(CallFault::Memory),
    }
}

/// The ranks of functions, or the names of the calls on cycles.
fn ordered(alloc: Global, program: &Program<'_>) -> Result<Ordered, AllocError>
    ensures { IfOk result (IsOrdered (plain_program program.now)) }
{
    let sites = call_sites(alloc, program)?;
    let graph = graph_of(alloc, sites.as_slice(), program.functions.as_slice().len())?;
    let numbers = components(alloc, &graph)?;
    let recursive = within_components(alloc, sites.as_slice(), numbers.as_slice())?;
    if recursive.is_empty() {
        let ranks = ranks_along(alloc, &graph, numbers.as_slice())?;
        Ok(Ordered::Ranked(ListBuf::of(ranks)))
    } else {
        let names = names_of(alloc, recursive.as_slice())?;
        Ok(Ordered::Cyclic(ListBuf::of(names)))
    }
}

/// The spans of the names in calls.
fn names_of(alloc: Global, calls: &[CallSite]) -> Result<Vec<Span>, AllocError>
    ensures { IfOk result (λ names. names.items ≡ map (λ s. s.call.name) calls.now) }
{
    let mut names = Vec::new(alloc);
    for site in calls {
        names.push(site.call.name)?;
    }
    Ok(names)
}
