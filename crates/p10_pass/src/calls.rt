//! The pass over a function's body, and over one statement of it.

ghost use Rattle.std.specs.Prelude.{◌≡◌, ◌++◌, map, slice_get, Some, OnOk, IfOk};
ghost use Rattle.std.specs.Option.{option_map, option_copied};
ghost use Rattle.p10_core.specs.Views.{plain_variable, plain_statement, plain_function, plain_program};
ghost use Rattle.p10_cert.specs.Claims.{loop_of, func_of, claims_of};
ghost use Rattle.p10_absx.specs.Branches.{unbranched};
ghost use Rattle.p10_pass.specs.Claiming.{head_of, claim_or_none, loop_claimed};
ghost use Rattle.p10_pass.specs.Passing.{trial_manner, claimed_manner, manner_of, fails_of, pass_body, pass_of};
ghost use Rattle.p10_pass.specs.Leaving.{failing_of, left_of};
ghost use Rattle.p10_pass.specs.Manners.{manner_by};
ghost use Rattle.p10_pass.specs.Findings.{findings_of, findings_in, passed_at, loops_on, head_at};
ghost use Rattle.p10_pass.specs.private.Telling.{failing_with};

use crate::claiming::head_under;
use crate::left::{Fail, Left};
use crate::loops::no_claim;
use crate::manner::Manner;
use crate::passed::Passed;
use crate::walk::{claim_at, pass_block, pass_statement};
use p10_absx::Env;
use p10_base::Span;
use p10_cert::{Cert, FuncClaim, LoopClaim};
use p10_core::{Func, Program, Stmt, Variable};
use std::alloc::{AllocError, Global};

/// The pass over the body of the function with the number `f`, from the environment `env` on, by what the certificate `c` claims: what is
/// known where the body ends, which of K3 and K5 to K7 fail in it, and at which loops K8, K9 or K10 does. A function that isn't there
/// ends nowhere.
///
/// # Errors
///
/// Out of memory.
pub fn pass(
    alloc: Global,
    p: &Program<'_>,
    c: &Cert,
    f: u32,
    env: Env,
) -> Result<Passed, AllocError>
    ensures { IfOk result (λ passed. findings_in passed ≡ findings_of (pass_of (plain_program p.now) (claims_of c.now) f env.values)) }
{
    let left = body_left(alloc, p, c, f, env)?;
    told(alloc, left)
}

/// The pass over the statement `s` of the function with the number `f`, from the environment `env` on; without a certificate it is the
/// trial pass, in which nothing fails. In a function that isn't there it ends nowhere.
///
/// # Errors
///
/// Out of memory.
pub fn pass_stmt(
    alloc: Global,
    p: &Program<'_>,
    c: Option<&Cert>,
    f: u32,
    s: &Stmt,
    env: Env,
) -> Result<Passed, AllocError>
    ensures { IfOk result (λ passed. findings_in passed ≡ findings_of (passed_at (plain_program p.now) (option_map claims_of (option_copied c.entry)) f (plain_statement s.now) env.values)) }
{
    let left = statement_left(alloc, p, c, f, s, env)?;
    told(alloc, left)
}

/// The environment with which the pass enters the loop with the number `at`, in the function with the number `f`: the claimed ranges take
/// the place of those at its entry. In a function that isn't there nothing changes.
///
/// # Errors
///
/// Out of memory.
pub fn head(
    alloc: Global,
    p: &Program<'_>,
    c: &Cert,
    f: u32,
    at: u32,
    entry: &Env,
) -> Result<Env, AllocError>
    ensures { IfOk result (λ env. env ≡ unbranched (head_at (plain_program p.now) (claims_of c.now) f at entry.now.values)) }
{
    match function_at(p, f) {
        Some(g) => head_in_function(
            alloc,
            claim_at(loops_on(claim_on(c, f)), at),
            g.vars.as_slice(),
            entry,
        ),
        None => entry.copy(alloc),
    }
}

/// The environment at the head of a loop under its claim, if it has one.
fn head_in_function(
    alloc: Global,
    claim: Option<&LoopClaim>,
    variables: &[Variable<'_>],
    entry: &Env,
) -> Result<Env, AllocError>
    ensures { IfOk result (λ env. env ≡ unbranched (head_of (claim_or_none (option_map loop_of (option_copied claim.entry))) (map plain_variable variables.now) entry.now.values)) }
{
    match claim {
        Some(claim) => head_under(alloc, claim, variables, entry),
        None => {
            let claim = no_claim(alloc);
            let env = head_under(alloc, &claim, variables, entry)?;
            Ok(env)
        }
    }
}

/// The function with a number.
fn function_at<'a, 's>(p: &'a Program<'s>, f: u32) -> Option<&'a Func<'s>>
    ensures { option_map plain_function (option_copied result) ≡ slice_get (plain_program p.now).functions f }
{
    p.functions.as_slice().get(f as usize)
}

/// What is claimed of the function with a number.
fn claim_on(c: &Cert, f: u32) -> Option<&FuncClaim>
    ensures { option_map func_of (option_copied result) ≡ slice_get (claims_of c.now).funcs f }
{
    c.funcs.as_slice().get(f as usize)
}

/// The claims of a function's loops.
fn loops_on(claim: Option<&FuncClaim>) -> &[LoopClaim]
    ensures { map loop_of result.now ≡ loops_on (option_map func_of (option_copied claim.entry)) }
{
    match claim {
        Some(claim) => claim.loops.as_slice(),
        None => &[],
    }
}

impl<'a, 's> Manner<'a, 's> {
    /// The manner of a trial pass over a function with these variables.
    pub fn trial(variables: &'a [Variable<'s>]) -> Manner<'a, 's>
        ensures { manner_by result ≡ trial_manner (map plain_variable variables.now) }
    {
        Manner {
            calls: None,
            loops: None,
            result: None,
            variables,
        }
    }

    /// The manner of a pass under a certificate over a function with these variables, by what is claimed of it.
    pub fn claimed(
        c: &'a Cert,
        claim: Option<&'a FuncClaim>,
        variables: &'a [Variable<'s>],
    ) -> Manner<'a, 's>
        ensures { manner_by result ≡ claimed_manner (claims_of c.now) (option_map func_of (option_copied claim.entry)) (map plain_variable variables.now) }
    {
        match claim {
            Some(claim) => Manner {
                calls: Some(c),
                loops: Some(claim.loops.as_slice()),
                result: Some(claim.result),
                variables,
            },
            None => Manner {
                calls: Some(c),
                loops: Some(&[]),
                result: None,
                variables,
            },
        }
    }

    /// The manner of a pass over the function with a number.
    pub fn of(g: &'a Func<'s>, c: Option<&'a Cert>, f: u32) -> Manner<'a, 's>
        ensures { manner_by result ≡ manner_of (plain_function g.now) (option_map claims_of (option_copied c.entry)) f }
    {
        match c {
            Some(c) => Manner::claimed(c, claim_on(c, f), g.vars.as_slice()),
            None => Manner::trial(g.vars.as_slice()),
        }
    }
}

/// What the body of the function with a number leaves.
fn body_left(alloc: Global, p: &Program<'_>, c: &Cert, f: u32, env: Env) -> Result<Left, AllocError>
    ensures { IfOk result (λ l. left_of l ≡ pass_of (plain_program p.now) (claims_of c.now) f env.values) }
{
    match function_at(p, f) {
        Some(g) => function_left(alloc, g, c, f, env),
        None => Ok(Left::nowhere(alloc)),
    }
}

/// What the body of a function leaves.
fn function_left(
    alloc: Global,
    g: &Func<'_>,
    c: &Cert,
    f: u32,
    env: Env,
) -> Result<Left, AllocError>
    ensures { IfOk result (λ l. left_of l ≡ pass_body (plain_function g.now) (Some (claims_of c.now)) f env.values) }
{
    let m = Manner::of(g, Some(c), f);
    pass_block(alloc, &m, g.body.as_slice(), env)
}

/// What a statement of the function with a number leaves.
fn statement_left(
    alloc: Global,
    p: &Program<'_>,
    c: Option<&Cert>,
    f: u32,
    s: &Stmt,
    env: Env,
) -> Result<Left, AllocError>
    ensures { IfOk result (λ l. left_of l ≡ passed_at (plain_program p.now) (option_map claims_of (option_copied c.entry)) f (plain_statement s.now) env.values) }
{
    match function_at(p, f) {
        Some(g) => {
            let m = Manner::of(g, c, f);
            pass_statement(alloc, &m, s, env)
        }
        None => Ok(Left::nowhere(alloc)),
    }
}

/// Puts conditions with a number that fail at places.
fn put_fails(k: u8, places: &[Span], fails: &mut Vec<Fail>) -> Result<(), AllocError>
    ensures { OnOk result (map failing_of fails.new.items ≡ map failing_of fails.old.items ++ map (failing_with k) places.now) }
{
    for at in places {
        fails.push(Fail { k, at: *at })?;
    }
    Ok(())
}

/// The failing K3 and K5 to K7, by number and then in text order.
fn fails_of(alloc: Global, left: &Left) -> Result<Vec<Fail>, AllocError>
    ensures { IfOk result (λ fails. map failing_of fails.items ≡ fails_of (left_of left.now)) }
{
    let mut fails = Vec::new(alloc);
    put_fails(3, left.arguments.as_slice(), &mut fails)?;
    put_fails(5, left.results.as_slice(), &mut fails)?;
    put_fails(6, left.entries.as_slice(), &mut fails)?;
    put_fails(7, left.backs.as_slice(), &mut fails)?;
    Ok(fails)
}

/// What is found of what statements leave.
fn told(alloc: Global, left: Left) -> Result<Passed, AllocError>
    ensures { IfOk result (λ passed. findings_in passed ≡ findings_of (left_of left)) }
{
    let fails = fails_of(alloc, &left)?;
    Ok(passed(left, fails))
}

/// The same with the failing conditions.
fn passed(left: Left, fails: Vec<Fail>) -> Passed
    ensures { findings_in result ≡ record (findings_of (left_of left)) { fails = map failing_of fails.items } }
{
    let mut left = left;
    Passed {
        normal: left.normal.take(),
        breaks: left.breaks.take(),
        continues: left.continues.take(),
        returns: left.returns.take(),
        returned: left.returned,
        fails,
        weak: left.weak,
    }
}
