//! Places that lie in string literals: C8.

ghost use Rattle.std.specs.Prelude.{◌≡◌, ◌++◌, OnOk};
ghost use Rattle.p10_core.specs.Views.{plain_value, plain_place};
ghost use Rattle.p10_clean.specs.Statements.{target_flaws};
ghost use Rattle.p10_clean.specs.Literals.{lies_in_literal, points_in_literal};

use crate::flaw::{Flaw, push_if};
use p10_core::{Place, PlaceForm, Value, ValueForm};
use std::alloc::AllocError;

/// Puts C8 of a place that is written.
pub(crate) fn push_target(p: &Place, flaws: &mut Vec<Flaw>) -> Result<(), AllocError>
    ensures { OnOk result (flaws.new.items ≡ flaws.old.items ++ target_flaws (plain_place p.now)) }
{
    push_if(lies_in_literal(p), 8, p.at.span, flaws)
}

/// Whether a place lies in a string literal without a pointer's value.
#[cycle(literals)]
fn lies_in_literal(p: &Place) -> bool
    ensures { result ≡ lies_in_literal (plain_place p.now) }
{
    match &p.form {
        PlaceForm::Literal(_, _) => true,
        PlaceForm::Member(whole, _) => lies_in_literal(whole),
        PlaceForm::Index(pointer, _) => points_in_literal(pointer),
        PlaceForm::Var(_) | PlaceForm::Global(_) | PlaceForm::Deref(_) => false,
    }
}

/// Whether a pointer is the value of an array that does.
#[cycle(literals)]
fn points_in_literal(v: &Value) -> bool
    ensures { result ≡ points_in_literal (plain_value v.now) }
{
    match &v.form {
        ValueForm::Decay(whole) => lies_in_literal(whole),
        ValueForm::Const(_)
        | ValueForm::Read(_)
        | ValueForm::Sense(_)
        | ValueForm::Addr(_)
        | ValueForm::Convert(_)
        | ValueForm::Cast(_)
        | ValueForm::Unary(_, _)
        | ValueForm::Binary(_, _, _)
        | ValueForm::Logic(_, _, _)
        | ValueForm::Cond(_, _, _)
        | ValueForm::Call(_, _, _)
        | ValueForm::Builtin(_, _, _) => false,
    }
}
