//! Whether the items of an initialiser's list fit the scalars for which they stand (C99 6.7.8).

ghost use Rattle.std.specs.Prelude.{◌≡◌, ◌+◌, IfSome, drop, map, length};
ghost use Rattle.p10_core.specs.Types.{plain_type};
ghost use Rattle.p10_core.specs.Sizes.{scalars_of};
ghost use Rattle.p10_core.specs.Views.{plain_types, plain_value, plain_item, plain_written};
ghost use Rattle.p10_core.specs.WholePrograms.{IsObjectType, AreWholeItems, IsWholeWritten, IsScalarValue, IsScalarText, width_of_written, is_character};
ghost use Rattle.p10_whole.specs.private.Scalars.{HasCharacters, HasCharacter};
ghost use Rattle.p10_whole.specs.private.Shows.{Shows};
ghost use Rattle.p10_whole.specs.private.Surroundings.{surroundings_in};

use crate::around::Around;
use crate::scalars::scalar_at;
use crate::types::{are_compatible, is_unmarked};
use crate::values::is_whole_value;
use p10_core::{CType, Item, TypeForm, Types, Value, Written};
use p10_int::IntType;

/// Whether items fit the scalars of a type of objects, one after the other.
#[tactic(auto, using(crate::proofs::Showing::shows_none))]
pub(crate) fn are_whole_items(around: &Around<'_, '_>, t: &CType, items: &[Item]) -> bool
    requires object { IsObjectType (plain_types around.now.program.now.types) (plain_type t.now) }
    ensures { Shows result (AreWholeItems (surroundings_in around.now) (scalars_of (plain_types around.now.program.now.types) (plain_type t.now)) 0 (map plain_item items.now)) }
{
    let mut from = 0;
    for item in items {
        if item.scalar < from {
            return false;
        }
        if !is_whole_written(around, t, item.scalar, &item.written) {
            return false;
        }
        match place_past(item.scalar, width_of_written(&item.written)) {
            Some(next) => from = next,
            None => return false,
        }
    }
    true
}

/// The place `count` scalars after another one, if a `u64` holds it.
fn place_past(from: u64, count: u64) -> Option<u64>
    ensures { IfSome result (λ n. n ≡ from + count) }
{
    if count <= u64::MAX - from {
        Some(from + count)
    } else {
        None
    }
}

/// How many scalars something is written for.
fn width_of_written(written: &Written) -> u64
    ensures { result ≡ width_of_written (plain_written written.now) }
{
    match written {
        Written::Scalar(_) => 1,
        Written::Text(bytes) => bytes.as_slice().len() as u64,
    }
}

/// Whether what is written fits the scalars from a place on.
fn is_whole_written(around: &Around<'_, '_>, t: &CType, place: u64, written: &Written) -> bool
    requires object { IsObjectType (plain_types around.now.program.now.types) (plain_type t.now) }
    ensures { Shows result (IsWholeWritten (surroundings_in around.now) (drop place (scalars_of (plain_types around.now.program.now.types) (plain_type t.now))) (plain_written written.now)) }
{
    match written {
        Written::Scalar(v) => is_scalar_value(around, t, place, v),
        Written::Text(bytes) => {
            is_scalar_text(&around.program.types, t, place, bytes.as_slice())
        }
    }
}

/// Whether a value fits the scalar at a place.
#[tactic(auto, using(crate::proofs::Showing::shows_none))]
fn is_scalar_value(around: &Around<'_, '_>, t: &CType, place: u64, v: &Value) -> bool
    requires object { IsObjectType (plain_types around.now.program.now.types) (plain_type t.now) }
    ensures { Shows result (IsScalarValue (surroundings_in around.now) (drop place (scalars_of (plain_types around.now.program.now.types) (plain_type t.now))) (plain_value v.now)) }
{
    match scalar_at(&around.program.types, t, place) {
        Some(scalar) => {
            is_whole_value(around, v)
                & (are_compatible(&around.program.types, &v.ty, scalar) & is_unmarked(&v.ty))
        }
        None => false,
    }
}

/// Whether the scalars from a place on are characters, for bytes of a string literal.
fn is_scalar_text(types: &Types<'_>, t: &CType, place: u64, bytes: &[u8]) -> bool
    requires object { IsObjectType (plain_types types.now) (plain_type t.now) }
    ensures { Shows result (IsScalarText (drop place (scalars_of (plain_types types.now) (plain_type t.now))) bytes.now) }
{
    has_characters(types, t, place, bytes.len() as u64)
}

/// Whether `count` scalars from a place on are characters.
#[tactic(auto, using(crate::proofs::Showing::shows_none))]
fn has_characters(types: &Types<'_>, t: &CType, from: u64, count: u64) -> bool
    requires object { IsObjectType (plain_types types.now) (plain_type t.now) }
    ensures { Shows result (HasCharacters (plain_types types.now) (plain_type t.now) from count) }
{
    for k in 0..count {
        match place_past(from, k) {
            Some(place) => {
                if !has_character(types, t, place) {
                    return false;
                }
            }
            None => return false,
        }
    }
    true
}

/// Whether the scalar at a place is a character.
#[tactic(auto, using(crate::proofs::Showing::shows_none))]
fn has_character(types: &Types<'_>, t: &CType, place: u64) -> bool
    requires object { IsObjectType (plain_types types.now) (plain_type t.now) }
    ensures { Shows result (HasCharacter (plain_types types.now) (plain_type t.now) place) }
{
    match scalar_at(types, t, place) {
        Some(scalar) => is_character(scalar),
        None => false,
    }
}

/// Whether a type is one of the three character types (C99 6.2.5p15).
fn is_character(t: &CType) -> bool
    ensures { result ≡ is_character (plain_type t.now) }
{
    match &t.form {
        TypeForm::Int(kind) => { matches!(kind, IntType::Char | IntType::SChar | IntType::UChar) }
        _ => false,
    }
}
