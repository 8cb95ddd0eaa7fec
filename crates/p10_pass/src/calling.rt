//! Whether something is called in a value: where nothing is, no call can fail.

ghost use Rattle.std.specs.Prelude.{◌≡◌};
ghost use Rattle.p10_core.specs.Views.{plain_value, plain_place, plain_values};
ghost use Rattle.p10_pass.specs.private.Calling.{has_call as has_call_of, has_call_among as has_call_among_of, has_call_at as has_call_at_of};

use p10_core::{Place, PlaceForm, Value, ValueForm};

/// Whether something is called in a value.
#[cycle(calling)]
pub(crate) fn has_call(v: &Value) -> bool
    ensures { result ≡ has_call_of (plain_value v.now) }
{
    match &v.form {
        ValueForm::Const(_) | ValueForm::Sense(_) => false,
        ValueForm::Read(p) | ValueForm::Addr(p) | ValueForm::Decay(p) => has_call_at(p),
        ValueForm::Convert(part) | ValueForm::Cast(part) | ValueForm::Unary(_, part) => has_call(
            part,
        ),
        ValueForm::Binary(_, a, b) | ValueForm::Logic(_, a, b) => has_call(a) || has_call(b),
        ValueForm::Cond(test, a, b) => has_call(test) || (has_call(a) || has_call(b)),
        ValueForm::Call(_, _, _) => true,
        ValueForm::Builtin(_, _, arguments) => has_call_among(arguments.as_slice()),
    }
}

/// The same for values, one after the other.
#[cycle(calling)]
fn has_call_among(all: &[Value]) -> bool
    ensures { result ≡ has_call_among_of (plain_values all.now) }
{
    for v in all {
        if has_call(v) {
            return true;
        }
    }
    false
}

/// The same for a place.
#[cycle(calling)]
fn has_call_at(p: &Place) -> bool
    ensures { result ≡ has_call_at_of (plain_place p.now) }
{
    match &p.form {
        PlaceForm::Var(_) | PlaceForm::Global(_) | PlaceForm::Literal(_, _) => false,
        PlaceForm::Index(a, i) => has_call(a) || has_call(i),
        PlaceForm::Member(whole, _) => has_call_at(whole),
        PlaceForm::Deref(pointer) => has_call(pointer),
    }
}
