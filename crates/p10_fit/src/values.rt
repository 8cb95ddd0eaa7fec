//! Claims on parameters and results.

ghost use Rattle.std.specs.Prelude.{◌≡◌, map};
ghost use Rattle.p10_core.specs.Types.{plain_type};
ghost use Rattle.p10_core.specs.Views.{plain_variable};
ghost use Rattle.p10_range.specs.Ranges.{is_within, interval_of};
ghost use Rattle.p10_range.specs.Rows.{values_of};
ghost use Rattle.p10_cert.specs.Claims.{value_of};
ghost use Rattle.p10_fit.specs.Fits.{fits_type, fits_types, kind_of_integer};

use p10_cert::ValueClaim;
use p10_core::{CType, TypeForm, Variable};
use p10_int::{IntType, range};
use p10_range::Range;

/// The type of an integer.
pub(crate) fn kind_of_integer(t: &CType) -> Option<IntType>
    ensures { result ≡ kind_of_integer (plain_type t.now) }
{
    match &t.form {
        TypeForm::Int(kind) => Some(*kind),
        _ => None,
    }
}

/// Whether the numbers of a range are all values of the type.
pub(crate) fn is_of_type(kind: IntType, ends: Range) -> bool
    ensures { result ≡ is_within (interval_of ends) (values_of kind) }
{
    let (least, greatest) = range(kind);
    least <= ends.lo && ends.hi <= greatest
}

/// Whether this may be claimed of a value of the type.
pub(crate) fn fits_type(t: &CType, claim: ValueClaim) -> bool
    ensures { result ≡ fits_type (plain_type t.now) (value_of claim) }
{
    match &t.form {
        TypeForm::Int(kind) => match claim {
            ValueClaim::Ints(ends) => is_of_type(*kind, ends),
            _ => false,
        },
        TypeForm::Pointer(_) => matches!(claim, ValueClaim::Pointer),
        TypeForm::Void => matches!(claim, ValueClaim::Void),
        _ => false,
    }
}

/// Whether these may be claimed of the variables, one after the other.
pub(crate) fn fits_types(variables: &[Variable<'_>], claims: &[ValueClaim]) -> bool
    ensures { result ≡ fits_types (map (λ v. (plain_variable v).type) variables.now) (map value_of claims.now) }
{
    let mut variables = variables;
    let mut claims = claims;
    while let [v, others @ ..] = variables {
        match claims {
            [claim, further @ ..] => {
                if !fits_type(&v.ty, *claim) {
                    return false;
                }
                variables = others;
                claims = further;
            }
            [] => return false,
        }
    }
    claims.is_empty()
}
