//! Calls on cycles of calls.

ghost use Rattle.std.specs.Prelude.{◌≡◌, IfOk};
ghost use Rattle.std.specs.List.{filter};
ghost use Rattle.p10_core.specs.Views.{plain_program};
ghost use Rattle.p10_calls.specs.Recursion.{AreRecursiveCalls};
ghost use Rattle.p10_calls.specs.private.Numbering.{has_one_number};

use crate::graph::graph_of;
use crate::sites::{CallSite, call_sites};
use p10_core::Program;
use p10_graph::components;
use std::alloc::{AllocError, Global};

/// The calls of a program that lie on cycles of calls, in the order of its functions and of the text. It fails only where memory runs out.
pub fn recursive_calls(alloc: Global, program: &Program<'_>) -> Result<Vec<CallSite>, AllocError>
    ensures { IfOk result (λ calls. AreRecursiveCalls (plain_program program.now) calls.items) }
{
    let sites = call_sites(alloc, program)?;
    let graph = graph_of(alloc, sites.as_slice(), program.functions.as_slice().len())?;
    let numbers = components(alloc, &graph)?;
    within_components(alloc, sites.as_slice(), numbers.as_slice())
}

/// The calls whose functions both have one number.
pub(crate) fn within_components(
    alloc: Global,
    sites: &[CallSite],
    numbers: &[u32],
) -> Result<Vec<CallSite>, AllocError>
    ensures { IfOk result (λ calls. calls.items ≡ filter (has_one_number numbers.now) sites.now) }
{
    let mut calls = Vec::new(alloc);
    for site in sites {
        if has_one_number(site, numbers) {
            calls.push(*site)?;
        }
    }
    Ok(calls)
}

/// Whether both functions of a call have one number.
fn has_one_number(site: &CallSite, numbers: &[u32]) -> bool
    ensures { result ≡ has_one_number numbers.now site.now }
{
    let caller = site.caller as usize;
    let called = site.call.function as usize;
    if caller < numbers.len() && called < numbers.len() {
        numbers[caller] == numbers[called]
    } else {
        false
    }
}
