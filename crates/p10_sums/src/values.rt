//! Tallies of values and places (C99 6.5).

ghost use Rattle.std.specs.Prelude.{◌≡◌};
ghost use Rattle.p10_core.specs.Views.{plain_value, plain_place, plain_values};
ghost use Rattle.p10_sums.specs.private.Tallies.{counting_by};
ghost use Rattle.p10_sums.specs.private.Walks.{value_tally, place_tally, values_tally};

use crate::basis::{Basis, claim_at};
use crate::tally::{Tally, in_turn, no_tally, of_callee, of_library, one_of, paying, some_steps};
use p10_core::{Place, PlaceForm, Value, ValueForm};

/// The tally of a value.
#[cycle(values)]
pub(crate) fn value_tally(basis: &Basis<'_, '_>, v: &Value) -> Tally
    ensures { result ≡ value_tally (counting_by basis.now) (plain_value v.now) }
{
    match &v.form {
        ValueForm::Const(_) | ValueForm::Sense(_) => some_steps(1),
        ValueForm::Read(place) | ValueForm::Addr(place) | ValueForm::Decay(place) => paying(
            place_tally(basis, place),
        ),
        ValueForm::Convert(part) => value_tally(basis, part),
        ValueForm::Cast(part) | ValueForm::Unary(_, part) => paying(value_tally(basis, part)),
        ValueForm::Binary(_, left, right) | ValueForm::Logic(_, left, right) => paying(in_turn(
            value_tally(basis, left),
            value_tally(basis, right),
        )),
        ValueForm::Cond(test, left, right) => {
            let tested = value_tally(basis, test);
            let first = value_tally(basis, left);
            let second = value_tally(basis, right);
            paying(in_turn(tested, one_of(first, second)))
        }
        ValueForm::Call(_, function, arguments) => {
            let given = values_tally(basis, arguments.as_slice());
            paying(in_turn(
                given,
                of_callee(claim_at(basis.functions, *function as usize)),
            ))
        }
        ValueForm::Builtin(_, library, arguments) => {
            let given = values_tally(basis, arguments.as_slice());
            in_turn(of_library(*library), given)
        }
    }
}

/// The tally of a place.
#[cycle(values)]
pub(crate) fn place_tally(basis: &Basis<'_, '_>, p: &Place) -> Tally
    ensures { result ≡ place_tally (counting_by basis.now) (plain_place p.now) }
{
    match &p.form {
        PlaceForm::Var(_) | PlaceForm::Global(_) | PlaceForm::Literal(_, _) => no_tally(),
        PlaceForm::Index(pointer, by) => paying(in_turn(
            value_tally(basis, pointer),
            value_tally(basis, by),
        )),
        PlaceForm::Member(whole, _) => paying(place_tally(basis, whole)),
        PlaceForm::Deref(pointer) => paying(value_tally(basis, pointer)),
    }
}

/// The tally of arguments.
#[cycle(values)]
fn values_tally(basis: &Basis<'_, '_>, all: &[Value]) -> Tally
    ensures { result ≡ values_tally (counting_by basis.now) (plain_values all.now) }
{
    let mut total = no_tally();
    for v in all {
        total = in_turn(total, value_tally(basis, v));
    }
    total
}
