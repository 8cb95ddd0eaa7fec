//! String literals that are listed in the program (C99 6.4.5p5).

ghost use Rattle.std.specs.Prelude.{◌≡◌, false, Contains, map, option_map, option_copied, slice_get};
ghost use Rattle.p10_int.specs.declared.types.IntType.TheVariants.{Char};
ghost use Rattle.p10_core.specs.Types.{plain_type, integer, array};
ghost use Rattle.p10_core.specs.Views.{plain_program, plain_literal};
ghost use Rattle.p10_core.specs.Whole.{IsLiteral};
ghost use Rattle.p10_whole.specs.private.Shows.{Shows};
ghost use Rattle.p10_whole.specs.private.Surroundings.{surroundings_in};

use crate::around::Around;
use crate::shapes::is_integer_of;
use p10_core::{CType, Literal, TypeForm};
use p10_int::IntType;

/// Whether a place of a type may be the string literal with a number and these bytes.
pub(crate) fn is_literal(around: &Around<'_, '_>, number: u32, bytes: &[u8], t: &CType) -> bool
    ensures { Shows result (IsLiteral (surroundings_in around.now) number bytes.now (plain_type t.now)) }
{
    is_char_array(t, bytes.len()) & is_listed(around.program.literals.as_slice(), number, bytes)
}

/// Whether a type is an array of `count` `char`s.
#[tactic(auto, using(crate::proofs::Showing::shows_none))]
fn is_char_array(t: &CType, count: usize) -> bool
    ensures { Shows result (plain_type t.now ≡ array false (integer false Char) count) }
{
    match &t.form {
        TypeForm::Array(element, length) => {
            !t.is_const & (is_integer_of(IntType::Char, element) & (*length == count as u64))
        }
        _ => false,
    }
}

/// Whether a string literal is among those of a program. Their numbers rise, so a binary search finds its place; it has
/// to be proved only that it stands there.
#[tactic(auto, using(crate::proofs::Showing::shows_none))]
fn is_listed(literals: &[Literal], number: u32, bytes: &[u8]) -> bool
    ensures { Shows result (Contains (map plain_literal literals.now) (record { number = number; bytes = bytes.now })) }
{
    match literals.binary_search_by_key(&number, |literal| literal.number) {
        Ok(place) => is_literal_at(literals, place, number, bytes),
        Err(_) => false,
    }
}

/// Whether a string literal stands at a place.
#[tactic(auto, using(crate::proofs::Showing::shows_none))]
fn is_literal_at(literals: &[Literal], place: usize, number: u32, bytes: &[u8]) -> bool
    ensures { Shows result (Contains (map plain_literal literals.now) (record { number = number; bytes = bytes.now })) }
{
    match literal_at(literals, place) {
        Some(literal) => (literal.number == number) & are_equal(literal.bytes.as_slice(), bytes),
        None => false,
    }
}

/// Whether two texts are one.
fn are_equal(text: &[u8], other: &[u8]) -> bool
    ensures { Shows result (text.now ≡ other.now) }
{
    text == other
}

/// The string literal at a place.
fn literal_at(literals: &[Literal], place: usize) -> Option<&Literal>
    ensures { option_map plain_literal (option_copied result) ≡ slice_get (map plain_literal literals.now) place }
{
    literals.get(place)
}
