//! The values of constants and strings (C99 6.4.4, 6.4.5).

ghost use Rattle.std.specs.Prelude.{◌≡◌, ℤ, pos, IfOk, Some, [], map, option_map, length, false};
ghost use Rattle.p10_int.specs.declared.types.IntType.TheVariants.{Char};
ghost use Rattle.p10_core.specs.Types.{integer, array};
ghost use Rattle.p10_core.specs.Typed.{place, literal};
ghost use Rattle.p10_core.specs.Views.{plain_place};
ghost use Rattle.p10_elabx.specs.Literals.{constant_types, first_type, constant_of_type, integer_value, number_found, character_by, character_found, string_value, strings_value, string_of, strings_found};
ghost use Rattle.p10_elabx.specs.Built.{ruled_operand};

use crate::operand::{Operand, PlaceKind};
use crate::problem::Problem;
use crate::sizes::is_small;
use p10_base::{At, SubsetCode};
use p10_core::{CType, Place, Value};
use p10_int::{IntType, holds};
use p10_lex::{Base, Integer, Suffix, character_value, integer_constant, string_bytes};
use std::alloc::{AllocError, Global};

/// A number (C99 6.4.4.1).
pub fn number_found(at: At, text: &[u8]) -> Result<Operand, Option<Problem>>
    ensures { ruled_operand result ≡ number_found at text.now }
{
    integer_value(at, integer_constant(text))
}

/// A constant that a text is.
fn integer_value(at: At, found: Option<Integer>) -> Result<Operand, Option<Problem>>
    ensures { ruled_operand result ≡ integer_value at found }
{
    match found {
        None => Err(None),
        Some(constant) => {
            let value = i128::from(constant.value);
            constant_of_type(
                at,
                value,
                first_type(constant_types(constant.base, constant.suffix), value),
            )
        }
    }
}

/// A constant of a type.
fn constant_of_type(at: At, value: i128, kind: Option<IntType>) -> Result<Operand, Option<Problem>>
    ensures { ruled_operand result ≡ constant_of_type at value kind }
{
    match kind {
        None => Err(None),
        Some(kind) => Ok(Operand::Value(Value::constant(at, CType::integer(kind), value))),
    }
}

/// The types that a constant may have, in the order in which they are tried.
fn constant_types(base: Base, suffix: Suffix) -> &'static [IntType]
    ensures { result.now ≡ constant_types base suffix }
{
    match (base, suffix) {
        (Base::Decimal, Suffix::Plain) => &[IntType::Int, IntType::Long],
        (Base::Octal | Base::Hexadecimal, Suffix::Plain) => &[
            IntType::Int,
            IntType::UInt,
            IntType::Long,
            IntType::ULong,
        ],
        (_, Suffix::Unsigned) => &[IntType::UInt, IntType::ULong],
        (Base::Decimal, Suffix::Long) => &[IntType::Long],
        (Base::Octal | Base::Hexadecimal, Suffix::Long) => &[IntType::Long, IntType::ULong],
        (_, Suffix::UnsignedLong) => &[IntType::ULong],
        (Base::Decimal, Suffix::LongLong) => &[IntType::LLong],
        (Base::Octal | Base::Hexadecimal, Suffix::LongLong) => &[IntType::LLong, IntType::ULLong],
        (_, Suffix::UnsignedLongLong) => &[IntType::ULLong],
    }
}

/// The first of the types that has the value.
fn first_type(kinds: &[IntType], value: i128) -> Option<IntType>
    ensures { result ≡ first_type kinds.now value }
{
    for kind in kinds {
        if holds(*kind, value) {
            return Some(*kind);
        }
    }
    None
}

/// A character constant (C99 6.4.4.4).
pub fn character_found(at: At, text: &[u8]) -> Result<Operand, Option<Problem>>
    ensures { ruled_operand result ≡ character_found at text.now }
{
    match character_value(text) {
        None => Err(None),
        Some(value) => Ok(Operand::Value(Value::constant(at, CType::integer(IntType::Int), value))),
    }
}

/// The bytes of a string, without the last 0.
fn string_value(alloc: Global, text: &[u8]) -> Result<Option<Vec<u8>>, AllocError>
    ensures { IfOk result (λ found. option_map (λ bytes. bytes.items) found ≡ string_value text.now) }
{
    string_bytes(alloc, text)
}

/// The bytes of strings that stand side by side.
pub fn strings_value(alloc: Global, texts: &[&[u8]]) -> Result<Option<Vec<u8>>, AllocError>
    ensures { IfOk result (λ found. option_map (λ bytes. bytes.items) found ≡ strings_value (Some []) (map (λ text. text.now) texts.now)) }
{
    let mut bytes = Vec::new(alloc);
    for text in texts {
        match string_value(alloc, text)? {
            Some(more) => bytes.extend_from_slice(more.as_slice())?,
            None => return Ok(None),
        }
    }
    Ok(Some(bytes))
}

/// The place of a string of bytes with its last 0.
fn string_place(alloc: Global, at: At, bytes: Vec<u8>) -> Result<Place, AllocError>
    ensures { IfOk result (λ p. plain_place p ≡ place at (array false (integer false Char) (length bytes.items)) (literal at.first bytes.items)) }
{
    let ty = CType::array(alloc, CType::integer(IntType::Char), bytes.len() as u64)?;
    Ok(Place::literal(at, ty, at.first, bytes))
}

/// A string of bytes with its last 0.
fn string_of(
    alloc: Global,
    at: At,
    bytes: Vec<u8>,
) -> Result<Result<Operand, Option<Problem>>, AllocError>
    ensures { IfOk result (λ r. ruled_operand r ≡ string_of at bytes.items) }
{
    if is_small(bytes.len() as u64) {
        let whole = string_place(alloc, at, bytes)?;
        Ok(Ok(Operand::Place(PlaceKind::Object, whole)))
    } else {
        Ok(Err(Some(Problem {
            code: SubsetCode::BadLength,
            at,
        })))
    }
}

/// Strings that stand side by side (C99 6.4.5).
pub fn strings_found(
    alloc: Global,
    at: At,
    texts: &[&[u8]],
) -> Result<Result<Operand, Option<Problem>>, AllocError>
    ensures { IfOk result (λ r. ruled_operand r ≡ strings_found at (map (λ text. text.now) texts.now)) }
{
    match strings_value(alloc, texts)? {
        Some(bytes) => {
            let mut bytes = bytes;
            bytes.push(0)?;
            let found = string_of(alloc, at, bytes)?;
            Ok(found)
        }
        None => Ok(Err(None)),
    }
}
