//! The calls of a program's functions.

ghost use Rattle.std.specs.Prelude.{◌≡◌, ◌++◌, ◌∷◌, [], map, IfOk, OnOk};
ghost use Rattle.p10_core.specs.Nodes.{nodes_of_statements};
ghost use Rattle.p10_core.specs.Views.{plain_function, plain_program, plain_statements};
ghost use Rattle.p10_core.specs.Walks.{plain_node};
ghost use Rattle.p10_calls.specs.CallSites.{call_sites, calls_among, site, sites_from};

use p10_core::{Func, FunctionUse, Node, Nodes, Program, Stmt};
use std::alloc::{AllocError, Global};

/// A call of a function of the program: the number of the function in whose body it stands, and the call.
#[derive(Clone, Copy, Debug)]
pub struct CallSite {
    pub caller: u32,
    pub call: FunctionUse,
}

/// The calls of a program, in the order of its functions and of the text. It fails only where memory runs out; 2^32 functions count
/// as that, too.
pub fn call_sites(alloc: Global, program: &Program<'_>) -> Result<Vec<CallSite>, AllocError>
    ensures { IfOk result (λ sites. sites.items ≡ call_sites (plain_program program.now)) }
{
    sites_of(alloc, program.functions.as_slice())
}

/// The calls of functions, which are numbered from 0.
fn sites_of(alloc: Global, functions: &[Func<'_>]) -> Result<Vec<CallSite>, AllocError>
    ensures { IfOk result (λ sites. sites.items ≡ sites_from 0 (map plain_function functions.now)) }
{
    let count = functions.len();
    if count > u32::MAX as usize {
        return Err(AllocError);
    }
    let mut sites = Vec::new(alloc);
    for number in 0..count {
        push_sites(
            alloc,
            number as u32,
            functions[number].body.as_slice(),
            &mut sites,
        )?;
    }
    Ok(sites)
}

/// Puts the calls in the body of a function after the others.
fn push_sites(
    alloc: Global,
    caller: u32,
    body: &[Stmt],
    sites: &mut Vec<CallSite>,
) -> Result<(), AllocError>
    ensures { OnOk result (sites.new.items ≡ sites.old.items ++ map (site caller) (calls_among (nodes_of_statements (plain_statements body.now)))) }
{
    let mut nodes = Nodes::of_statements(alloc, body)?;
    while let Some(node) = nodes.next()? {
        push_site(caller, node, sites)?;
    }
    Ok(())
}

/// Puts a node after the calls, if it is one.
fn push_site(caller: u32, node: Node<'_>, sites: &mut Vec<CallSite>) -> Result<(), AllocError>
    ensures { OnOk result (sites.new.items ≡ sites.old.items ++ map (site caller) (calls_among (plain_node node.entry ∷ []))) }
{
    if let Some(call) = node.function_used() {
        sites.push(CallSite { caller, call })?;
    }
    Ok(())
}
