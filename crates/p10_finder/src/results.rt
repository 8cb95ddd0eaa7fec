//! The results of functions: each is found after those of the functions that it calls, except that one on a cycle of calls may give
//! any value of its type.

ghost use Rattle.std.specs.Prelude.{◌≡◌, ◌+◌, ◌<◌, ◌≤◌, map, length, slice_get, Some, IfOk, OnOk};
ghost use Rattle.p10_core.specs.Typed.{PlainFunction};
ghost use Rattle.p10_core.specs.Views.{plain_function, plain_program};
ghost use Rattle.p10_graph.specs.Graphs.{IsGraph};
ghost use Rattle.p10_cert.specs.Claims.{value_of, func_of, claims_of};
ghost use Rattle.p10_approach.specs.Offers.{offers_if};
ghost use Rattle.p10_finder.specs.Functions.{result_of};
ghost use Rattle.p10_finder.specs.Answers.{HaveResults};
ghost use Rattle.p10_finder.specs.private.Visiting.{AreCalls, IsLoneAt};
ghost use Rattle.p10_finder.specs.private.Settling.{bare_claim as bare_claim_of, claims_by, with_claim, any_results as any_results_of, AreSettled};

use crate::calls::{Calls, nodes_by_number};
use crate::functions::{any_value, function_found};
use crate::unsummed::any_parameters;
use p10_base::{Bounds, ListBuf};
use p10_cert::{Cert, FuncClaim, ValueClaim};
use p10_core::Func;
use p10_graph::is_on_cycle;
use std::alloc::{AllocError, Global};

impl Calls<'_, '_> {
    /// Claims with the results of all functions.
    pub(crate) fn results(&self, alloc: Global) -> Result<Cert, AllocError>
        requires { AreCalls self.now }
        ensures { IfOk result (λ claims. HaveResults (offers_if self.now.approaching) (plain_program self.now.program.now) (claims_of claims)) }
    {
        let functions = self.program.functions.as_slice();
        let end = self.graph.count();
        let nodes = nodes_by_number(alloc, self.numbers)?;
        let results = any_results(alloc, functions)?;
        let mut claims = claims_with(alloc, functions, results.as_slice())?;
        for number in 0..end {
            self.settle(alloc, nodes[number as usize], number, &mut claims)?;
        }
        Ok(claims)
    }

    /// Finds the result of a function, if it has the number before which all are found, and lies on no cycle of calls.
    fn settle(
        &self,
        alloc: Global,
        node: u32,
        number: u32,
        claims: &mut Cert,
    ) -> Result<(), AllocError>
        requires calls { AreCalls self.now }
        requires graph { IsGraph self.now.graph.now }
        requires there { node < length self.now.graph.now }
        requires lone { IsLoneAt self.now.graph.now self.now.numbers.now number node }
        requires settled { AreSettled (offers_if self.now.approaching) (plain_program self.now.program.now) self.now.graph.now self.now.numbers.now number (claims_of claims.old) }
        ensures { OnOk result (AreSettled (offers_if self.now.approaching) (plain_program self.now.program.now) self.now.graph.now self.now.numbers.now (number + 1) (claims_of claims.new)) }
    {
        if self.numbers[node as usize] == number {
            if is_on_cycle(self.graph, self.numbers, node) {
                Ok(())
            } else {
                self.find(alloc, node, claims)
            }
        } else {
            Ok(())
        }
    }

    /// Finds the result of a function, where those of the functions that it calls are found.
    fn find(&self, alloc: Global, node: u32, claims: &mut Cert) -> Result<(), AllocError>
        requires { node < length self.now.program.now.functions }
        ensures { OnOk result ((f : PlainFunction) → slice_get (plain_program self.now.program.now).functions node ≡ Some f
            → claims_of claims.new ≡ with_claim (claims_of claims.old) node (bare_claim_of f (result_of (offers_if self.now.approaching) (plain_program self.now.program.now) (claims_of claims.old) node f))) }
    {
        let function = &self.program.functions.as_slice()[node as usize];
        let found = function_found(
            alloc,
            self.program,
            claims,
            node,
            function,
            self.approaching,
        )?;
        put_result(alloc, function, node, found.result, claims)?;
        Ok(())
    }
}

/// Puts a result in the place of what was claimed of a function.
fn put_result(
    alloc: Global,
    function: &Func<'_>,
    node: u32,
    found: ValueClaim,
    claims: &mut Cert,
) -> Result<(), AllocError>
    ensures { OnOk result (claims_of claims.new ≡ with_claim (claims_of claims.old) node (bare_claim_of (plain_function function.now) (value_of found))) }
{
    let mut claim = bare_claim(alloc, function, found)?;
    claims.funcs.exchange(node as usize, &mut claim);
    Ok(())
}

/// The results of which nothing is known.
fn any_results(alloc: Global, functions: &[Func<'_>]) -> Result<Vec<ValueClaim>, AllocError>
    ensures { IfOk result (λ results. map value_of results.items ≡ any_results_of (map plain_function functions.now)) }
{
    let mut results = Vec::with_capacity(alloc, functions.len())?;
    for function in functions {
        results.push(any_value(&function.result))?;
    }
    Ok(results)
}

/// Claims with these results, one for each function.
fn claims_with(
    alloc: Global,
    functions: &[Func<'_>],
    results: &[ValueClaim],
) -> Result<Cert, AllocError>
    requires { length functions.now ≤ length results.now }
    ensures { IfOk result (λ claims. claims_of claims ≡ claims_by (map plain_function functions.now) (map value_of results.now)) }
{
    let mut funcs = Vec::with_capacity(alloc, functions.len())?;
    for (n, function) in functions.iter().enumerate() {
        let claim = bare_claim(alloc, function, results[n])?;
        funcs.push(claim)?;
    }
    Ok(Cert {
        funcs: ListBuf::of(funcs),
        total: Bounds {
            prefix: 0,
            turn: 0,
            calls: 0,
            bytes: 0,
        },
    })
}

/// A claim on a function of which only the result counts.
fn bare_claim(
    alloc: Global,
    function: &Func<'_>,
    found: ValueClaim,
) -> Result<FuncClaim, AllocError>
    ensures { IfOk result (λ claim. func_of claim ≡ bare_claim_of (plain_function function.now) (value_of found)) }
{
    let params = any_parameters(alloc, function)?;
    Ok(FuncClaim {
        name: ListBuf::of(Vec::new(alloc)),
        rank: 0,
        steps: 0,
        calls: 0,
        bytes: 0,
        alloc: false,
        params: ListBuf::of(params),
        result: found,
        loops: ListBuf::of(Vec::new(alloc)),
    })
}
