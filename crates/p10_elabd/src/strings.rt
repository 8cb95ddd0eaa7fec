//! Strings and lists by their form, where they initialise (C99 6.7.8p14, p21).

ghost use Rattle.std.specs.Prelude.{◌≡◌, IfOk, map, option_map};
ghost use Rattle.p10_syn.specs.Trees.{initializer_row};
ghost use Rattle.p10_syn.specs.Built.{expression_of};
ghost use Rattle.p10_syn.specs.BuiltStatements.{initializer_of};
ghost use Rattle.p10_core.specs.Types.{plain_type};
ghost use Rattle.p10_core.specs.WholePrograms.{is_character};
ghost use Rattle.p10_elabd.specs.Initializers.{element_of, string_in, with_place, value_string, string_alone, string_by, is_zero, is_zero_item, is_zero_list, count_items, listed_count, elements_given};
ghost use Rattle.p10_elabd.specs.ItemViews.{plain_text};

use p10_base::At;
use p10_core::{CType, TypeForm};
use p10_elabx::strings_value;
use p10_int::IntType;
use p10_syn::{Expr, Form, Init};
use std::alloc::{AllocError, Global};

/// The bytes of a string, without the 0 at its end, and where it stands.
#[derive(Drop)]
pub struct Text {
    pub at: At,
    pub bytes: Vec<u8>,
}

/// Whether a type is one of characters.
pub fn is_character(ty: &CType) -> bool
    ensures { result ≡ is_character (plain_type ty.now) }
{
    matches!(
        &ty.form,
        TypeForm::Int(IntType::Char | IntType::SChar | IntType::UChar)
    )
}

/// Whether a type is an array of characters.
pub fn holds_characters(ty: &CType) -> bool
    ensures { result ≡ is_character (element_of (plain_type ty.now)) }
{
    match &ty.form {
        TypeForm::Array(element, _) => is_character(element),
        TypeForm::Void | TypeForm::Int(_) | TypeForm::Pointer(_) | TypeForm::Struct(_) => false,
    }
}

/// The bytes of strings that stand alone, without parentheses.
fn string_in(alloc: Global, e: &Expr<'_>) -> Result<Option<Vec<u8>>, AllocError>
    ensures { IfOk result (λ found. option_map (λ bytes. bytes.items) found ≡ string_in (expression_of e.now)) }
{
    match &e.form {
        Form::Str(texts) => {
            if e.parens == 0 {
                let bytes = strings_value(alloc, texts)?;
                Ok(bytes)
            } else {
                Ok(None)
            }
        }
        _ => Ok(None),
    }
}

/// The bytes of a string with their place, where characters are initialised.
fn placed_string(alloc: Global, characters: bool, e: &Expr<'_>) -> Result<Option<Text>, AllocError>
    ensures { IfOk result (λ t. option_map plain_text t ≡ with_place characters e.now.at (string_in (expression_of e.now))) }
{
    if !characters {
        return Ok(None);
    }
    match string_in(alloc, e)? {
        Some(bytes) => Ok(Some(Text { at: e.at, bytes })),
        None => Ok(None),
    }
}

/// The bytes of a string that isn't in braces.
fn value_string(alloc: Global, characters: bool, one: &Init<'_>) -> Result<Option<Text>, AllocError>
    ensures { IfOk result (λ t. option_map plain_text t ≡ value_string characters (initializer_of one.now)) }
{
    match one {
        Init::Value(e) => {
            let text = placed_string(alloc, characters, e)?;
            Ok(text)
        }
        Init::Braced(_, _, _) => Ok(None),
    }
}

/// The bytes of a string that stands alone in braces.
pub fn string_alone(
    alloc: Global,
    characters: bool,
    all: &[Init<'_>],
) -> Result<Option<Text>, AllocError>
    ensures { IfOk result (λ t. option_map plain_text t ≡ string_alone characters (initializer_row (map initializer_of all.now))) }
{
    match all.first() {
        None => Ok(None),
        Some(one) => {
            if all.len() == 1 {
                let text = value_string(alloc, characters, one)?;
                Ok(text)
            } else {
                Ok(None)
            }
        }
    }
}

/// The bytes of a string for an array of characters: one in braces is one too.
pub fn string_by(alloc: Global, characters: bool, i: &Init<'_>) -> Result<Option<Text>, AllocError>
    ensures { IfOk result (λ t. option_map plain_text t ≡ string_by characters (initializer_of i.now)) }
{
    match i {
        Init::Value(_) => {
            let text = value_string(alloc, characters, i)?;
            Ok(text)
        }
        Init::Braced(_, all, _) => {
            let text = string_alone(alloc, characters, all)?;
            Ok(text)
        }
    }
}

/// Whether an expression is the number written `0`.
fn is_zero(e: &Expr<'_>) -> bool
    ensures { result ≡ is_zero (expression_of e.now) }
{
    match &e.form {
        Form::Number(text) => e.parens == 0 && *text == b"0".as_slice(),
        _ => false,
    }
}

/// Whether an item is the number written `0`.
fn is_zero_item(one: &Init<'_>) -> bool
    ensures { result ≡ is_zero_item (initializer_of one.now) }
{
    match one {
        Init::Value(e) => is_zero(e),
        Init::Braced(_, _, _) => false,
    }
}

/// Whether a list is `{0}`.
pub fn is_zero_list(all: &[Init<'_>]) -> bool
    ensures { result ≡ is_zero_list (initializer_row (map initializer_of all.now)) }
{
    match all.first() {
        None => false,
        Some(one) => {
            if all.len() == 1 {
                is_zero_item(one)
            } else {
                false
            }
        }
    }
}

/// How many items there are.
#[tactic(auto, using(crate::proofs::ItemRows::counted))]
fn count(all: &[Init<'_>]) -> u64
    ensures { result ≡ count_items (initializer_row (map initializer_of all.now)) }
{
    all.len() as u64
}

/// How many items a list has.
fn listed_count(i: &Init<'_>) -> Option<u64>
    ensures { result ≡ listed_count (initializer_of i.now) }
{
    match i {
        Init::Value(_) => None,
        Init::Braced(_, all, _) => Some(count(all)),
    }
}

/// How many elements an initialiser gives to an array without a length (C99 6.7.8p22): one for each item, or for each byte of a
/// string and the 0 at its end; none where it is an expression.
pub fn elements_given(alloc: Global, ty: &CType, i: &Init<'_>) -> Result<Option<u64>, AllocError>
    ensures { IfOk result (λ n. n ≡ elements_given (plain_type ty.now) (initializer_of i.now)) }
{
    match string_by(alloc, is_character(ty), i)? {
        Some(text) => Ok(Some(text.bytes.len() as u64 + 1)),
        None => Ok(listed_count(i)),
    }
}
