//! Tallies of initialisers (C99 6.7.8).

ghost use Rattle.std.specs.Prelude.{◌≡◌, map, slice_get};
ghost use Rattle.p10_core.specs.Types.{plain_type};
ghost use Rattle.p10_core.specs.Views.{plain_program, plain_written, plain_item, plain_initializer};
ghost use Rattle.p10_core.specs.WholePrograms.{AreWholeStructures};
ghost use Rattle.p10_sums.specs.private.Tallies.{counting_by, of_width};
ghost use Rattle.p10_sums.specs.private.Walks.{variable_tally, written_tally, items_tally, initializer_tally};

use crate::basis::{Basis, variable_at};
use crate::tally::{Tally, in_turn, no_tally, paying, some_steps};
use crate::values::{place_tally, value_tally};
use crate::widths::capped_width;
use p10_core::{CType, Initializer, Item, Written};

/// The tally of an initialiser of a variable with steps for its scalars.
pub(crate) fn initializer_tally(
    basis: &Basis<'_, '_>,
    scalars: Tally,
    initial: &Initializer,
) -> Tally
    ensures { result ≡ initializer_tally (counting_by basis.now) scalars (plain_initializer initial.now) }
{
    match initial {
        Initializer::Absent => no_tally(),
        Initializer::Single(value) => value_tally(basis, value),
        Initializer::Copied(place) => {
            let source = place_tally(basis, place);
            paying(in_turn(source, scalars))
        }
        Initializer::Listed(_, items) => {
            let listed = items_tally(basis, items.as_slice());
            in_turn(listed, scalars)
        }
    }
}

/// A step for each scalar of the variable with a number.
pub(crate) fn variable_tally(basis: &Basis<'_, '_>, number: u32) -> Tally
    requires structures { AreWholeStructures (plain_program basis.now.program.now).structures }
    ensures { result ≡ variable_tally (counting_by basis.now) (slice_get (counting_by basis.now).variables number) }
{
    match variable_at(basis.variables, number) {
        Some(variable) => width_tally(basis, &variable.ty),
        None => some_steps(0),
    }
}

/// A step for each scalar of a type.
pub(crate) fn width_tally(basis: &Basis<'_, '_>, t: &CType) -> Tally
    requires structures { AreWholeStructures (plain_program basis.now.program.now).structures }
    ensures { result ≡ of_width (counting_by basis.now) (plain_type t.now) }
{
    some_steps(capped_width(&basis.program.types, t))
}

/// The tally of listed values.
fn items_tally(basis: &Basis<'_, '_>, all: &[Item]) -> Tally
    ensures { result ≡ items_tally (counting_by basis.now) (map plain_item all.now) }
{
    let mut total = no_tally();
    for item in all {
        total = in_turn(total, written_tally(basis, &item.written));
    }
    total
}

/// The tally of what is written for scalars.
fn written_tally(basis: &Basis<'_, '_>, written: &Written) -> Tally
    ensures { result ≡ written_tally (counting_by basis.now) (plain_written written.now) }
{
    match written {
        Written::Scalar(value) => value_tally(basis, value),
        Written::Text(_) => no_tally(),
    }
}
