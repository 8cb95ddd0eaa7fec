//! The places of expressions, and of the names of types in them.

ghost use Rattle.std.specs.Prelude.{◌≡◌, ◌+◌, ◌<◌, ◌^◌, min};
ghost use Rattle.p10_syn.specs.Bare.{bare, bare_name, bare_list, bare_optional, bare_type, bare_specifiers};
ghost use Rattle.p10_syn.specs.Built.{identifier_of, expression_of, kind_of, specifiers_in};
ghost use Rattle.p10_syn.specs.Counts.{count, count_list, count_optional, count_type, count_specifiers};
ghost use Rattle.p10_syn.specs.Places.{locate, locate_name, locate_list, locate_optional, locate_type, locate_specifiers};
ghost use Rattle.p10_place.specs.Roots.{source_of};
ghost use Rattle.p10_place.specs.private.Lists.{expressions_in, boxed_of};

use crate::declarator::set_declarator;
use crate::form::set_form;
use crate::put::put;
use crate::root::Root;
use crate::specifier::set_specifiers;
use p10_syn::{Expr, Form, Identifier, TypeName};
use std::mem::replace;

/// Sets the places in an expression that begins with word `first` of the root, and gives the number
/// of the word past it.
#[cycle(setting)]
pub(crate) fn set_expression(root: &Root<'_, '_>, first: usize, e: &mut Expr<'_>) -> usize
    requires { first + count (bare (expression_of e.old)) < 2 ^ 64 }
    ensures placed { expression_of e.new ≡ locate (source_of root.now) first (bare (expression_of e.old)) }
    ensures past { result ≡ first + count (bare (expression_of e.old)) }
{
    let form = replace(&mut e.form, Form::Number(&[]));
    let (form, past) = set_form(root, first + e.parens, form);
    let past = past + e.parens;
    put(&mut e.form, form);
    e.at = root.place_between(first, past);
    past
}

/// Sets the place of a name.
pub(crate) fn set_name(root: &Root<'_, '_>, first: usize, name: &mut Identifier<'_>) -> usize
    requires { first + 1 < 2 ^ 64 }
    ensures placed { identifier_of name.new ≡ locate_name (source_of root.now) first (bare_name (identifier_of name.old)) }
    ensures past { result ≡ first + 1 }
{
    name.at = root.place_between(first, first + 1);
    first + 1
}

/// Sets the places in expressions with commas between them.
#[cycle(setting)]
pub(crate) fn set_list(root: &Root<'_, '_>, first: usize, list: &mut Vec<Expr<'_>>) -> usize
    requires { first + count_list (bare_list (expressions_in list.old)) < 2 ^ 64 }
    ensures placed { expressions_in list.new ≡ locate_list (source_of root.now) first (bare_list (expressions_in list.old)) }
    ensures past { result ≡ first + count_list (bare_list (expressions_in list.old)) }
{
    let mut past = first;
    for i in 0..list.len() {
        past = set_expression(root, past + comma_before(i), &mut list[i]);
    }
    past
}

/// How many commas stand before this element of a list, between it and the one before.
pub(crate) fn comma_before(i: usize) -> usize
    ensures { result ≡ min i 1 }
{
    if i == 0 { 0 } else { 1 }
}

/// Sets the places in an expression that may be left out.
#[cycle(setting)]
pub(crate) fn set_optional(
    root: &Root<'_, '_>,
    first: usize,
    value: &mut Option<Box<Expr<'_>>>,
) -> usize
    requires { first + count_optional (bare_optional (boxed_of value.old)) < 2 ^ 64 }
    ensures placed { boxed_of value.new ≡ locate_optional (source_of root.now) first (bare_optional (boxed_of value.old)) }
    ensures past { result ≡ first + count_optional (bare_optional (boxed_of value.old)) }
{
    match value {
        None => first,
        Some(e) => set_expression(root, first, e),
    }
}

/// Sets the places in the name of a type.
#[cycle(setting)]
pub(crate) fn set_type(root: &Root<'_, '_>, first: usize, kind: &mut TypeName<'_>) -> usize
    requires { first + count_type (bare_type (kind_of kind.old)) < 2 ^ 64 }
    ensures placed { kind_of kind.new ≡ locate_type (source_of root.now) first (bare_type (kind_of kind.old)) }
    ensures past { result ≡ first + count_type (bare_type (kind_of kind.old)) }
{
    let past = set_specifiers(root, first, &mut kind.specs);
    let past = set_declarator(root, past, &mut kind.declarator);
    kind.at = root.place_between(first, past);
    past
}
