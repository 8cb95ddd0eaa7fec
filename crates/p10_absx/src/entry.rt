//! The environment with which a call enters a function.

ghost use Rattle.std.specs.Prelude.{◌≡◌, ℕ, [], map, slice_get, Some, None, IfOk};
ghost use Rattle.std.specs.Option.{option_map, option_copied};
ghost use Rattle.p10_core.specs.Views.{plain_variable, plain_function, plain_program};
ghost use Rattle.p10_range.specs.Ranges.{interval_of};
ghost use Rattle.p10_cert.specs.Claims.{value_of, func_of, claims_of};
ghost use Rattle.p10_absx.specs.declared.notes.Entry.{Entry as ListedEntry};
ghost use Rattle.p10_absx.specs.Abstract.{abstract_of};
ghost use Rattle.p10_absx.specs.Entering.{parameter_claimed as parameter_claimed_of, claims_on, entry_for as entry_for_of, entries_from, entry_of_function, entry_of, entry_at};
ghost use Rattle.p10_absx.specs.Trails.{known_in_entries};

use crate::abs::Abs;
use crate::env::Env;
use crate::notes::Entry;
use crate::operators::{only_range, values};
use p10_cert::{Cert, FuncClaim, ValueClaim};
use p10_core::{Func, Program, Variable, integer_of};
use p10_int::IntType;
use p10_range::Range;
use std::alloc::{AllocError, Global};

/// What is claimed of a parameter of an integer type.
fn parameter_claimed(kind: IntType, claim: Option<ValueClaim>) -> Range
    ensures { interval_of result ≡ parameter_claimed_of kind (option_map value_of claim) }
{
    match claim {
        Some(ValueClaim::Ints(range)) => range,
        Some(ValueClaim::Pointer) => values(kind),
        Some(ValueClaim::Void) => values(kind),
        None => values(kind),
    }
}

/// The claim with a number, if there is one.
#[tactic(auto, using(crate::proofs::Entries::got_mapped))]
fn claim_at(claims: &[ValueClaim], n: usize) -> Option<ValueClaim>
    ensures { option_map value_of result ≡ slice_get (map value_of claims.now) n }
{
    match claims.get(n) {
        Some(claim) => Some(*claim),
        None => None,
    }
}

/// The entry of a variable.
fn entry_for(n: usize, parameters: u32, claims: &[ValueClaim], v: &Variable<'_>) -> Option<Abs>
    ensures { option_map abstract_of result ≡ entry_for_of n parameters (map value_of claims.now) (plain_variable v.now) }
{
    if n < parameters as usize && v.frame && v.ty.is_integer() {
        let range = parameter_claimed(integer_of(&v.ty), claim_at(claims, n));
        Some(only_range(range))
    } else {
        None
    }
}

/// The entries of a function's variables.
fn entries_of(
    alloc: Global,
    parameters: u32,
    claims: &[ValueClaim],
    variables: &[Variable<'_>],
) -> Result<Vec<Entry>, AllocError>
    ensures known { IfOk result (λ es. known_in_entries es.items ≡ entries_from 0 parameters (map value_of claims.now) (map plain_variable variables.now)) }
    ensures fresh { IfOk result (λ es. (n : ℕ) (e : ListedEntry) → slice_get es.items n ≡ Some e → e.noted ≡ 0) }
{
    let mut entries = Vec::with_capacity(alloc, variables.len())?;
    for (n, variable) in variables.iter().enumerate() {
        entries.push(Entry {
            known: entry_for(n, parameters, claims, variable),
            noted: 0,
        })?;
    }
    Ok(entries)
}

impl Env {
    /// The environment at the entry of function `f`, a number: its integer frame parameters lie in the ranges that `c` claims of them. A
    /// function that isn't there has no variables.
    ///
    /// # Errors
    ///
    /// Out of memory.
    pub fn entry(alloc: Global, p: &Program<'_>, c: &Cert, f: u32) -> Result<Env, AllocError>
        ensures { IfOk result (λ env. env ≡ record { values = entry_at (plain_program p.now) (claims_of c.now) f; outer = [] }) }
    {
        match p.functions.as_slice().get(f as usize) {
            Some(function) => Env::entry_of(alloc, function, c.funcs.as_slice().get(f as usize)),
            None => Ok(Env::of_entries(alloc, Vec::new(alloc))),
        }
    }

    /// The environment at the entry of a function of which nothing is claimed: each integer frame parameter has any value of its type.
    ///
    /// # Errors
    ///
    /// Out of memory.
    pub fn start(alloc: Global, function: &Func<'_>) -> Result<Env, AllocError>
        ensures { IfOk result (λ env. env ≡ record { values = entry_of_function None (plain_function function.now); outer = [] }) }
    {
        Env::entry_of(alloc, function, None)
    }

    /// The environment at the entry of a function.
    fn entry_of(
        alloc: Global,
        function: &Func<'_>,
        claim: Option<&FuncClaim>,
    ) -> Result<Env, AllocError>
        ensures { IfOk result (λ env. env ≡ record { values = entry_of_function (option_map func_of (option_copied claim.entry)) (plain_function function.now); outer = [] }) }
    {
        match claim {
            Some(claim) => Env::entry_with(alloc, function, claim.params.as_slice()),
            None => Env::entry_with(alloc, function, &[]),
        }
    }

    /// The environment at the entry of a function, by what is claimed of its parameters.
    fn entry_with(
        alloc: Global,
        function: &Func<'_>,
        claims: &[ValueClaim],
    ) -> Result<Env, AllocError>
        ensures { IfOk result (λ env. env ≡ record { values = entries_from 0 function.now.params (map value_of claims.now) (map plain_variable function.now.vars); outer = [] }) }
    {
        let entries = entries_of(alloc, function.params, claims, function.vars.as_slice())?;
        Ok(Env::of_entries(alloc, entries))
    }
}
