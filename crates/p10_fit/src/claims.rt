//! The claim on one loop.

ghost use Rattle.std.specs.Prelude.{◌≡◌, ◌<◌, ◌^◌, OnOk, true, length};
ghost use Rattle.std.specs.List.{list_all};
ghost use Rattle.p10_core.specs.Views.{plain_function, plain_statements};
ghost use Rattle.p10_cert.specs.Claims.{var_of, loop_of};
ghost use Rattle.p10_fit.specs.Sites.{in_scope_after_all};
ghost use Rattle.p10_fit.specs.Fits.{counter_type, fits_rank, fits_variable, fits_loop};

use crate::scope::Scope;
use crate::values::{is_of_type, kind_of_integer};
use p10_cert::{LoopClaim, Rank, VarRange, VarRanges};
use p10_core::{Func, LoopHead, Stmt, StmtForm};
use p10_int::IntType;
use std::alloc::AllocError;

/// A loop that a walk comes to: how many loops it stands in, and what it begins with.
#[derive(Clone, Copy)]
pub(crate) struct Opened {
    pub depth: u64,
    pub head: LoopHead,
}

/// What the first clause of a loop declares comes into scope.
pub(crate) fn declare_all(scope: &mut Scope, first: &[Stmt]) -> Result<(), AllocError>
    ensures ok { OnOk result (scope.new.numbers.items ≡ in_scope_after_all scope.old.numbers.items (plain_statements first.now)) }
    ensures same { length scope.new.counts.items ≡ length scope.old.counts.items }
{
    for s in first {
        if let StmtForm::Declare(number, _) = &s.form {
            scope.declare(*number)?;
        }
    }
    Ok(())
}

/// The type of the integer frame variable with a number, where it is in scope.
fn counter_type(function: &Func<'_>, scope: &Scope, number: u32) -> Option<IntType>
    requires { length scope.now.counts.items ≡ length function.now.vars }
    ensures { result ≡ counter_type (plain_function function.now) scope.now.numbers.items number }
{
    match function.vars.as_slice().get(number as usize) {
        Some(variable) => {
            if scope.has(number) && variable.frame {
                kind_of_integer(&variable.ty)
            } else {
                None
            }
        }
        None => None,
    }
}

/// Whether a rank may be claimed of a loop, which is the task loop or another one.
fn fits_rank(function: &Func<'_>, scope: &Scope, is_task: bool, rank: Rank) -> bool
    requires { length scope.now.counts.items ≡ length function.now.vars }
    ensures { result ≡ fits_rank (plain_function function.now) scope.now.numbers.items is_task rank }
{
    match rank {
        Rank::Up { var, bound: _ } | Rank::Down { var, bound: _ } => {
            !is_task && counter_type(function, scope, var).is_some()
        }
        Rank::One => !is_task,
        Rank::Task => is_task,
    }
}

/// Whether a range may be claimed of a variable at a loop.
fn fits_var(function: &Func<'_>, scope: &Scope, claim: VarRange) -> bool
    requires { length scope.now.counts.items ≡ length function.now.vars }
    ensures { result ≡ fits_variable (plain_function function.now) scope.now.numbers.items (var_of claim) }
{
    match counter_type(function, scope, claim.var) {
        Some(kind) => is_of_type(kind, claim.range),
        None => false,
    }
}

/// Whether ranges may be claimed of variables at a loop.
fn fits_vars(function: &Func<'_>, scope: &Scope, claims: &VarRanges) -> bool
    requires { length scope.now.counts.items ≡ length function.now.vars }
    ensures { result ≡ list_all (fits_variable (plain_function function.now) scope.now.numbers.items) claims.now }
{
    let mut left = claims.reader();
    while let Some(claim) = left.next() {
        if !fits_var(function, scope, claim) {
            return false;
        }
    }
    true
}

/// Whether this may be claimed of a loop.
pub(crate) fn fits_loop(
    function: &Func<'_>,
    task: Option<u32>,
    scope: &Scope,
    opened: Opened,
    claim: &LoopClaim,
) -> bool
    requires { length scope.now.counts.items ≡ length function.now.vars }
    ensures fits { result ≡ fits_loop (plain_function function.now) task (record { depth = opened.depth; head = opened.head; scope = scope.now.numbers.items }) (loop_of claim.now) }
    ensures shallow { result ≡ true → opened.depth < 2 ^ 32 }
{
    let is_task = task == Some(opened.head.number);
    u64::from(claim.depth) == opened.depth
        && fits_rank(function, scope, is_task, claim.rank)
        && fits_vars(function, scope, &claim.inv)
}
