//! Conversions that may change a value.

ghost use Rattle.std.specs.Prelude.{◌≡◌};
ghost use Rattle.p10_int.specs.Types.{holds_all};
ghost use Rattle.p10_core.specs.Types.{plain_type};
ghost use Rattle.p10_core.specs.Views.{plain_value};
ghost use Rattle.p10_warn.specs.Conversions.{narrows};
ghost use Rattle.p10_warn.specs.private.Listing.{is_narrowed};

use p10_core::{CType, TypeForm, Value, inconstant_part};
use p10_int::{IntType, range};

/// Whether the value may change where it is converted to the type, without being constant.
pub(crate) fn is_narrowed(target: &CType, value: &Value) -> bool
    ensures { result ≡ is_narrowed (plain_type target.now) (plain_value value.now) }
{
    narrows(&value.ty, target) && inconstant_part(value).is_some()
}

/// Whether a conversion from one type to another may change a value.
pub(crate) fn narrows(source: &CType, target: &CType) -> bool
    ensures { result ≡ narrows (plain_type source.now) (plain_type target.now) }
{
    match (&source.form, &target.form) {
        (TypeForm::Int(from), TypeForm::Int(to)) => !has_all_values(*to, *from),
        _ => false,
    }
}

/// Whether the first type has all values of the second.
fn has_all_values(kind: IntType, other: IntType) -> bool
    ensures { result ≡ holds_all kind other }
{
    let (least, greatest) = range(kind);
    let (low, high) = range(other);
    least <= low && high <= greatest
}
