//! The sizes of types as far as a type may be large (C99 6.5.3.4).

ghost use Rattle.std.specs.Prelude.{◌≡◌, ◌≤◌, ◌*◌, nat_le, Bool, Some, None, if◌then◌else◌};
ghost use Rattle.p10_core.specs.Types.{plain_type, structure};
ghost use Rattle.p10_core.specs.Views.{plain_types};
ghost use Rattle.p10_core.specs.Sizes.{size_of};
ghost use Rattle.p10_core.specs.WholePrograms.{AreWholeStructures, most_bytes};
ghost use Rattle.p10_elabx.specs.Operators.{has_size};

use p10_core::{CType, TypeForm, Types};

/// The most bytes that a type may have.
const MOST_BYTES: u64 = 1 << 40;

/// The bytes of a pointer.
const POINTER_BYTES: u64 = 8;

/// The size of a type, if it has one and isn't too large.
#[tactic(auto, using(crate::proofs::KnownSizes::integer_known, crate::proofs::KnownSizes::pointer_known))]
pub fn known_size(types: &Types<'_>, ty: &CType) -> Option<u64>
    requires { AreWholeStructures (plain_types types.now) }
    ensures { result ≡ (if has_size (plain_types types.now) (plain_type ty.now) then Some (size_of (plain_types types.now) (plain_type ty.now)) else None) }
{
    match &ty.form {
        TypeForm::Void => None,
        TypeForm::Int(_) => Some(types.size(ty)),
        TypeForm::Pointer(_) => Some(POINTER_BYTES),
        TypeForm::Array(element, length) => match known_size(types, element) {
            Some(size) => product(*length, size),
            None => None,
        },
        TypeForm::Struct(number) => structure_size(types, *number),
    }
}

/// The size of a structure, if it is complete.
fn structure_size(types: &Types<'_>, number: u32) -> Option<u64>
    requires { AreWholeStructures (plain_types types.now) }
    ensures { (c : Bool) → result ≡ (if has_size (plain_types types.now) (structure c number) then Some (size_of (plain_types types.now) (structure c number)) else None) }
{
    match types.body(number) {
        Some(body) => Some(body.bytes),
        None => None,
    }
}

/// A size times a length, if that isn't too large for a type.
#[tactic(auto, using(crate::proofs::KnownSizes::product_within, crate::proofs::KnownSizes::product_beyond))]
fn product(length: u64, size: u64) -> Option<u64>
    requires { size ≤ most_bytes }
    ensures { result ≡ (if nat_le (length * size) most_bytes then Some (length * size) else None) }
{
    let whole = u128::from(length) * u128::from(size);
    if whole <= u128::from(MOST_BYTES) {
        Some(whole as u64)
    } else {
        None
    }
}

/// Whether a type may have this many bytes.
#[tactic(auto, using(crate::proofs::KnownSizes::most_is))]
pub fn is_small(bytes: u64) -> bool
    ensures { result ≡ nat_le bytes most_bytes }
{
    bytes <= MOST_BYTES
}
