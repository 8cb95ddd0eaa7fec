//! The typed value of an expression, or its first refusal.

ghost use Rattle.p10_core.specs.WholePrograms.{AreWholeStructures};
ghost use Rattle.p10_syn.specs.Built.{expression_of};
ghost use Rattle.p10_elabx.specs.First.{every, only_first};
ghost use Rattle.p10_elabx.specs.Operands.{as_value};
ghost use Rattle.p10_elabx.specs.PlainScopes.{plain_scope};
ghost use Rattle.p10_elabx.specs.Judging.{judge};
ghost use Rattle.p10_elabx.specs.Answers.{Answers, AnswersOne};

use crate::evaluated::judge_value;
use crate::problem::Problem;
use crate::scope::Scope;
use p10_core::Value;
use p10_syn::Expr;
use std::alloc::Global;

/// Why an expression has no typed value.
#[derive(Debug, Drop)]
pub enum ElabFault {
    /// The first row of the subset that holds in it.
    Refused(Problem),
    /// It uses a name whose declaration was refused, and nothing else is wrong with it.
    NothingSaid,
    /// Out of memory.
    Memory,
}

/// The typed value of an expression in a scope, with the conversions that aren't written (C99 6.5).
///
/// # Errors
///
/// The first of all rows S1 to S25 that hold in the expression: the one whose tree begins first, of these the one with the least
/// number, and of these the one of the smallest tree. [`ElabFault::NothingSaid`] where no row holds, but a name is used whose
/// declaration was refused. Else [`ElabFault::Memory`].
pub fn value(alloc: Global, scope: &Scope<'_>, e: &Expr<'_>) -> Result<Value, ElabFault>
    requires { AreWholeStructures (plain_scope scope.now).structures }
    ensures { Answers (as_value (plain_scope scope.now).structures (judge every (plain_scope scope.now) (expression_of e.now))).found result }
{
    first_answer(alloc, scope, e)
}

/// The typed value, or the only row that is kept.
fn first_answer(alloc: Global, scope: &Scope<'_>, e: &Expr<'_>) -> Result<Value, ElabFault>
    requires { AreWholeStructures (plain_scope scope.now).structures }
    ensures { AnswersOne (as_value (plain_scope scope.now).structures (judge only_first (plain_scope scope.now) (expression_of e.now))).found result }
{
    match judge_value(alloc, scope, e) {
        Ok(j) => match j.found {
            Ok(v) => Ok(v),
            Err(Some(r)) => Err(ElabFault::Refused(r)),
            Err(None) => Err(ElabFault::NothingSaid),
        },
        Err(_) => Err(ElabFault::Memory),
    }
}
