//! Pointers that are followed, and declarators of pointers.

ghost use Rattle.std.specs.Prelude.{◌≡◌, ◌+◌, min, option_map};
ghost use Rattle.p10_base.specs.Words.{span_of};
ghost use Rattle.p10_syn.specs.Declaring.{identifier_in};
ghost use Rattle.p10_syn.specs.Built.{identifier_of, expression_of, declarator_of};
ghost use Rattle.p10_synrules.specs.Pointers.{is_star, is_additive, meets_dereference, dereferences_twice, has_star, ends_as_pointer, points_to_function, declarator_place};
ghost use Rattle.p10_synrules.specs.Violations.{opens_declarator, first_word, declarator_span};

use crate::header::text_at;
use p10_base::{At, Sources, Span};
use p10_syn::{Declarator, Expr, Form, Identifier, Sign};

/// Whether an operator is `*`.
fn is_star(sign: Sign) -> bool
    ensures { result ≡ is_star sign }
{
    matches!(sign, Sign::Star)
}

/// Whether an operator with two operands is `+` or `-`.
fn is_additive(sign: Sign) -> bool
    ensures { result ≡ is_additive sign }
{
    matches!(sign, Sign::Plus | Sign::Minus)
}

/// Whether a pointer meets a `*` or `->` where it comes from.
fn meets_dereference(e: &Expr<'_>) -> bool
    ensures { result ≡ meets_dereference (expression_of e.now) }
{
    match &e.form {
        Form::Unary(sign, _) => is_star(*sign),
        Form::Arrow(_, _) => true,
        Form::Member(a, _) | Form::Index(a, _) | Form::Cast(_, a) => meets_dereference(a),
        Form::Binary(sign, a, b) => {
            is_additive(*sign) && (meets_dereference(a) || meets_dereference(b))
        }
        _ => false,
    }
}

/// Whether an expression is a `*` or `->` whose pointer meets another one.
pub(crate) fn dereferences_twice(e: &Expr<'_>) -> bool
    ensures { result ≡ dereferences_twice (expression_of e.now) }
{
    match &e.form {
        Form::Unary(sign, a) => is_star(*sign) && meets_dereference(a),
        Form::Arrow(a, _) => meets_dereference(a),
        _ => false,
    }
}

/// Whether `*` stands in a declarator itself or in its parts in parentheses.
pub(crate) fn has_star(declarator: &Declarator<'_>) -> bool
    ensures { result ≡ has_star (declarator_of declarator.now) }
{
    match declarator {
        Declarator::Named(_) | Declarator::Unnamed(_) => false,
        Declarator::Pointer(_, _, _) => true,
        Declarator::Parenthesised(_, inner)
        | Declarator::Array(_, inner, _, _)
        | Declarator::Function(_, inner, _, _, _) => has_star(inner),
    }
}

/// Whether a declarator says pointer last of its name, read outward.
fn ends_as_pointer(declarator: &Declarator<'_>) -> bool
    ensures { result ≡ ends_as_pointer (declarator_of declarator.now) }
{
    match declarator {
        Declarator::Pointer(_, _, _) => true,
        Declarator::Parenthesised(_, inner) => ends_as_pointer(inner),
        _ => false,
    }
}

/// Whether a declarator says of its name, or of what its name leads to, that it is a pointer to a
/// function.
pub(crate) fn points_to_function(declarator: &Declarator<'_>) -> bool
    ensures { result ≡ points_to_function (declarator_of declarator.now) }
{
    match declarator {
        Declarator::Named(_) | Declarator::Unnamed(_) => false,
        Declarator::Pointer(_, _, inner)
        | Declarator::Parenthesised(_, inner)
        | Declarator::Array(_, inner, _, _) => points_to_function(inner),
        Declarator::Function(_, inner, _, _, _) => {
            ends_as_pointer(inner) || points_to_function(inner)
        }
    }
}

/// The name that a declarator declares, and where it stands.
pub(crate) fn name_in<'s>(declarator: &Declarator<'s>) -> Option<Identifier<'s>>
    ensures { option_map identifier_of result ≡ identifier_in (declarator_of declarator.now) }
{
    match declarator {
        Declarator::Named(name) => Some(*name),
        Declarator::Unnamed(_) => None,
        Declarator::Pointer(_, _, inner)
        | Declarator::Parenthesised(_, inner)
        | Declarator::Array(_, inner, _, _)
        | Declarator::Function(_, inner, _, _, _) => name_in(inner),
    }
}

/// Where a declarator stands, with all of its words.
fn declarator_place(declarator: &Declarator<'_>) -> At
    ensures { result ≡ declarator_place (declarator_of declarator.now) }
{
    match declarator {
        Declarator::Named(name) => name.at,
        Declarator::Unnamed(at)
        | Declarator::Pointer(at, _, _)
        | Declarator::Parenthesised(at, _)
        | Declarator::Array(at, _, _, _)
        | Declarator::Function(at, _, _, _, _) => *at,
    }
}

/// Whether a byte begins a declarator without a name.
fn opens_declarator(byte: Option<u8>) -> bool
    ensures { result ≡ opens_declarator byte }
{
    match byte {
        None => false,
        Some(byte) => byte == b'(' || byte == b'*',
    }
}

/// The first word of what stands at a place.
fn first_word(sources: &Sources, at: Span) -> Span
    ensures { result ≡ first_word sources.now at }
{
    let text = text_at(sources, at.file);
    if opens_declarator(text.get(at.start as usize).copied()) {
        one_byte(at)
    } else {
        at
    }
}

/// The first byte of a place.
fn one_byte(at: Span) -> Span
    ensures { result ≡ span_of at.file at.start (min (at.start + 1) at.end) }
{
    if at.start < at.end {
        Span {
            end: at.start + 1,
            ..at
        }
    } else {
        at
    }
}

/// Where a declarator is reported: at its name, or else at its first word.
pub(crate) fn declarator_span(sources: &Sources, declarator: &Declarator<'_>) -> Span
    ensures { result ≡ declarator_span sources.now (declarator_of declarator.now) }
{
    match name_in(declarator) {
        None => first_word(sources, declarator_place(declarator).span),
        Some(name) => name.at.span,
    }
}
