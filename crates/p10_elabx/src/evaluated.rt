//! What is found in expressions that are evaluated.

ghost use Rattle.std.specs.Prelude.{◌≡◌, IfOk, map};
ghost use Rattle.p10_core.specs.WholePrograms.{AreWholeStructures};
ghost use Rattle.p10_syn.specs.Trees.{expression_row};
ghost use Rattle.p10_syn.specs.Built.{expression_of};
ghost use Rattle.p10_elabx.specs.First.{only_first};
ghost use Rattle.p10_elabx.specs.Operands.{as_value};
ghost use Rattle.p10_elabx.specs.Calls.{no_arguments};
ghost use Rattle.p10_elabx.specs.PlainScopes.{plain_scope};
ghost use Rattle.p10_elabx.specs.Judging.{target_judged, place_of, may_be_place, judge, judge_arguments};
ghost use Rattle.p10_elabx.specs.Built.{plain_wants, plain_listed, judged_operand, judged_value, judged_target};

use crate::callee::Wants;
use crate::judged::{Judged, Listed};
use crate::operand::{Operand, PlaceKind};
use crate::scope::Scope;
use crate::situation::Situation;
use crate::walk;
use p10_core::{Place, Value};
use p10_syn::Expr;
use std::alloc::{AllocError, Global};

/// What is found in the expression `e` in a scope, where it is evaluated: an operand, or the first row of the subset that holds in it,
/// or neither (see [`Judged`]).
///
/// # Errors
///
/// Out of memory.
pub fn judge(alloc: Global, scope: &Scope<'_>, e: &Expr<'_>) -> Result<Judged<Operand>, AllocError>
    requires { AreWholeStructures (plain_scope scope.now).structures }
    ensures { IfOk result (λ j. judged_operand j ≡ judge only_first (plain_scope scope.now) (expression_of e.now)) }
{
    walk::judge(
        alloc,
        Situation {
            scope,
            evaluated: true,
        },
        e,
    )
}

/// What is found in the expression `e` in a scope, where it is evaluated and a value is needed: the value, or the first row that holds,
/// or neither.
///
/// # Errors
///
/// Out of memory.
pub fn judge_value(
    alloc: Global,
    scope: &Scope<'_>,
    e: &Expr<'_>,
) -> Result<Judged<Value>, AllocError>
    requires { AreWholeStructures (plain_scope scope.now).structures }
    ensures { IfOk result (λ j. judged_value j ≡ as_value (plain_scope scope.now).structures (judge only_first (plain_scope scope.now) (expression_of e.now))) }
{
    walk::judge_value(
        alloc,
        Situation {
            scope,
            evaluated: true,
        },
        e,
    )
}

/// What is found in the target `e` of an assignment or a step in a scope: the place and its kind, or the first row that holds, or
/// neither.
///
/// # Errors
///
/// Out of memory.
pub fn judge_target(
    alloc: Global,
    scope: &Scope<'_>,
    e: &Expr<'_>,
) -> Result<Judged<(PlaceKind, Place)>, AllocError>
    requires { AreWholeStructures (plain_scope scope.now).structures }
    ensures { IfOk result (λ j. judged_target j ≡ target_judged only_first (plain_scope scope.now).structures (place_of (expression_of e.now)) (may_be_place (expression_of e.now)) (judge only_first (plain_scope scope.now) (expression_of e.now))) }
{
    walk::judge_target(
        alloc,
        Situation {
            scope,
            evaluated: true,
        },
        e,
    )
}

/// What is found in the arguments `all` of a call in a scope, or in operands of the comma operator, from the left; `wants` says what is
/// asked of each.
///
/// # Errors
///
/// Out of memory.
pub fn judge_arguments(
    alloc: Global,
    scope: &Scope<'_>,
    all: &[Expr<'_>],
    wants: Wants<'_>,
) -> Result<Listed, AllocError>
    requires { AreWholeStructures (plain_scope scope.now).structures }
    ensures { IfOk result (λ k. plain_listed k ≡ judge_arguments only_first (plain_scope scope.now) (plain_wants wants.entry) 0 no_arguments (expression_row (map expression_of all.now))) }
{
    walk::judge_arguments(
        alloc,
        Situation {
            scope,
            evaluated: true,
        },
        all,
        wants,
    )
}
