//! What is asked of untyped expressions by their form.

ghost use Rattle.std.specs.Prelude.{◌≡◌};
ghost use Rattle.p10_syn.specs.Built.{expression_of};
ghost use Rattle.p10_elabx.specs.First.{plainly};
ghost use Rattle.p10_elabx.specs.Judging.{may_be_place};
ghost use Rattle.p10_elabx.specs.Built.{ruled_operand, judged_operand};

use crate::judged::Judged;
use crate::operand::Operand;
use crate::problem::Problem;
use p10_syn::{Expr, Form, Sign};

/// What is found in a tree without parts.
pub fn plainly(found: Result<Operand, Option<Problem>>) -> Judged<Operand>
    ensures { judged_operand result ≡ plainly (ruled_operand found) }
{
    Judged {
        found,
        acts: false,
        reads: false,
    }
}

/// Whether a tree of this form can be a place, whatever its names stand for.
pub fn may_be_place(e: &Expr<'_>) -> bool
    ensures { result ≡ may_be_place (expression_of e.now) }
{
    match &e.form {
        Form::Name(_) | Form::Str(_) | Form::Index(_, _) | Form::Member(_, _) | Form::Arrow(_, _) =>
            { true }
        Form::Unary(sign, _) => matches!(sign, Sign::Star),
        _ => false,
    }
}
