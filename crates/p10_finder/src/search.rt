//! Where loops are looked for, what was found so far, and what is known on the way.

ghost use Rattle.std.specs.Prelude.{◌≡◌, IfOk, OnOk, if◌then◌else◌};
ghost use Rattle.std.specs.Option.{option_map, option_copied};
ghost use Rattle.p10_core.specs.Views.{plain_value, plain_statement, plain_statements};
ghost use Rattle.p10_cert.specs.Claims.{loop_of};
ghost use Rattle.p10_absx.specs.Environments.{hull_reached};
ghost use Rattle.p10_pass.specs.Manners.{manner_by};
ghost use Rattle.p10_pass.specs.Leaving.{values_in};
ghost use Rattle.p10_finder.specs.Finding.{loops_by};
ghost use Rattle.p10_finder.specs.Loops.{manner_after, with_loop, known_after_statement as after_statement, known_where_value as where_value, known_after_value as after_value, known_at_entry as at_entry, known_under as under_claim};
ghost use Rattle.p10_candidates.specs.Offering.{loop_found_by};
ghost use Rattle.p10_finder.specs.private.Looking.{search_by};

use crate::entering::LoopParts;
use p10_absx::Env;
use p10_base::Span;
use p10_candidates::{Approach, LoopFound};
use p10_cert::{Cert, LoopClaim};
use p10_core::{Func, LoopKeyword, Stmt, Value, Variable};
use p10_pass::{Manner, head_under, pass_statement, pass_statements};
use std::alloc::{AllocError, Global};

/// Where loops are looked for.
#[derive(Clone, Copy)]
pub struct Search<'a, 's> {
    /// What is claimed of functions: their results count.
    pub calls: &'a Cert,
    /// The function, its number and its variables.
    pub function: &'a Func<'s>,
    pub number: u32,
    pub variables: &'a [Variable<'s>],
    /// The number of the task loop, if the function has the task.
    pub task: Option<u32>,
    /// Whether variables that approach each other may bound turns.
    pub approaching: bool,
    /// How many loops the statements stand in.
    pub depth: u32,
}

/// The loops found so far, in text order.
#[derive(Drop)]
pub struct LoopsFound {
    /// What is claimed of them.
    pub claims: Vec<LoopClaim>,
    /// The keywords of those whose turns have no bound.
    pub unbounded: Vec<Span>,
    /// Of each the variables whose approach bounds its turns, if such do.
    pub approaches: Vec<Option<Approach>>,
}

impl LoopsFound {
    /// Adds a loop.
    pub(crate) fn add(&mut self, l: LoopFound) -> Result<(), AllocError>
        ensures { OnOk result (loops_by self.new ≡ with_loop (loops_by self.old) (loop_found_by l)) }
    {
        if let Some(keyword) = l.unbounded {
            self.unbounded.push(keyword)?;
        }
        self.approaches.push(l.approach)?;
        self.claims.push(l.claim)?;
        Ok(())
    }

    /// How calls and loops count after these loops were found.
    pub(crate) fn manner<'a, 's>(&'a self, s: &Search<'a, 's>) -> Manner<'a, 's>
        ensures { manner_by result ≡ manner_after (search_by s.now) (loops_by self.now) }
    {
        Manner {
            calls: Some(s.calls),
            loops: Some(self.claims.as_slice()),
            result: None,
            variables: s.variables,
        }
    }
}

/// What is known after a statement whose loops were found, where a state comes to it.
pub(crate) fn known_after_statement(
    alloc: Global,
    s: &Search<'_, '_>,
    found: &LoopsFound,
    x: &Stmt,
    env: Option<Env>,
) -> Result<Option<Env>, AllocError>
    ensures { IfOk result (λ after. values_in after ≡ after_statement (search_by s.now) (loops_by found.now) (plain_statement x.now) (values_in env)) }
{
    match env {
        Some(env) => {
            let left = pass_statement(alloc, &found.manner(s), x, env)?;
            Ok(left.normal)
        }
        None => Ok(None),
    }
}

/// What is known at the entry of a loop: after its first clause.
pub(crate) fn known_at_entry(
    alloc: Global,
    s: &Search<'_, '_>,
    found: &LoopsFound,
    first: &[Stmt],
    env: &Option<Env>,
) -> Result<Option<Env>, AllocError>
    ensures { IfOk result (λ entry. values_in entry ≡ at_entry (search_by s.now) (loops_by found.now) (plain_statements first.now) (values_in env.now)) }
{
    match env {
        Some(env) => {
            let copy = env.copy(alloc)?;
            let left = pass_statements(alloc, &found.manner(s), first, copy)?;
            Ok(left.normal)
        }
        None => Ok(None),
    }
}

/// What is known where a value is true or false, where a state comes to it.
pub(crate) fn known_where_value(
    alloc: Global,
    s: &Search<'_, '_>,
    v: &Value,
    truth: bool,
    env: &Option<Env>,
) -> Result<Option<Env>, AllocError>
    ensures { IfOk result (λ inside. values_in inside ≡ where_value (search_by s.now) (plain_value v.now) truth (values_in env.now)) }
{
    match env {
        Some(env) => env.assumed(alloc, Some(s.calls), v, truth),
        None => Ok(None),
    }
}

/// What is known where a `switch` on a value comes to its labels.
pub(crate) fn known_after_value(
    alloc: Global,
    s: &Search<'_, '_>,
    v: &Value,
    env: &Option<Env>,
) -> Result<Option<Env>, AllocError>
    ensures { IfOk result (λ inside. values_in inside ≡ after_value (search_by s.now) (plain_value v.now) (values_in env.now)) }
{
    match env {
        Some(env) => {
            let mut copy = env.copy(alloc)?;
            if v.ty.is_pointer() {
                return Ok(Some(copy));
            }
            match copy.value(alloc, Some(s.calls), v)? {
                Some(_) => Ok(Some(copy)),
                None => Ok(None),
            }
        }
        None => Ok(None),
    }
}

/// What is known where the body of a loop is entered under its claim.
pub(crate) fn known_under(
    alloc: Global,
    s: &Search<'_, '_>,
    parts: &LoopParts<'_>,
    claim: &LoopClaim,
    entry: &Option<Env>,
) -> Result<Option<Env>, AllocError>
    ensures { IfOk result (λ inside. values_in inside ≡ under_claim (search_by s.now) parts.now.head.keyword (option_map plain_value parts.now.tested.now) (loop_of claim.now) (values_in entry.now)) }
{
    match entry {
        Some(entry) => {
            let start = Some(head_under(alloc, claim, s.variables, entry)?);
            match parts.head.keyword {
                LoopKeyword::Do => Ok(start),
                LoopKeyword::While | LoopKeyword::For => match parts.tested {
                    Some(v) => known_where_value(alloc, s, v, true, &start),
                    None => Ok(start),
                },
            }
        }
        None => Ok(None),
    }
}
