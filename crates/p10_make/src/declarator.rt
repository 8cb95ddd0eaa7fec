//! Makes trees of types and declarators of their parts (C99 6.7).

ghost use Rattle.std.specs.Prelude.{◌≡◌, ◌<◌, IfOk, map, option_map, Option, Some, None};
ghost use Rattle.p10_syn.specs.Trees.{type_name, Keyword, Typedef, Structure as Structured, Enumeration as Enumerated, member_declaration, field, enumerator, Named, Unnamed, Pointer, Parenthesised, Array, Function, parameter, specifier_row, member_row, field_row, enumerator_row, parameter_row};
ghost use Rattle.p10_syn.specs.Built.{bare_kind_of, bare_specifier_of, bare_member_of, bare_field_of, bare_enumerator_of, bare_declarator_of, bare_parameter_of, bare_qualifier_of, named, named_tag, bare_optional_of};

use crate::identifiers::identifier;
use p10_base::boxed;
use p10_syn::{
    Declarator, Enumeration, Enumerator, Expr, Field, Member, Parameter, Qualifier, Sign, Spec,
    Structure, TypeName, nowhere,
};
use std::alloc::{AllocError, Global};

/// The name of a type.
pub fn type_name<'s>(specs: Vec<Spec<'s>>, declarator: Declarator<'s>) -> TypeName<'s>
    ensures { bare_kind_of result ≡ type_name tt (specifier_row (map bare_specifier_of specs.entry.items)) (bare_declarator_of declarator.entry) }
{
    TypeName {
        at: nowhere(),
        specs,
        declarator,
    }
}

/// A keyword as a specifier.
#[tactic(auto, unfolding(p10_syn::specs::Built::bare_specifier_of))]
pub fn keyword<'s>(sign: Sign) -> Spec<'s>
    ensures { bare_specifier_of result ≡ Keyword tt sign }
{
    Spec::Keyword(nowhere(), sign)
}

/// A typedef name as a specifier.
#[tactic(auto, unfolding(p10_syn::specs::Built::bare_specifier_of))]
pub fn typedef<'s>(name: &'s [u8]) -> Spec<'s>
    ensures { bare_specifier_of result ≡ Typedef (named name.now) }
{
    Spec::Typedef(identifier(name))
}

/// A structure or union.
pub fn structure<'s>(sign: Sign, tag: Option<&'s [u8]>, members: Vec<Member<'s>>) -> Spec<'s>
    ensures { bare_specifier_of result ≡ Structured tt sign (named_tag (option_map (λ text. text.now) tag.entry)) (member_row (map bare_member_of members.entry.items)) }
{
    match tag {
        None => Spec::Structure(Structure {
            at: nowhere(),
            sign,
            tag: None,
            members,
        }),
        Some(text) => Spec::Structure(Structure {
            at: nowhere(),
            sign,
            tag: Some(identifier(text)),
            members,
        }),
    }
}

/// An enumeration.
pub fn enumeration<'s>(
    tag: Option<&'s [u8]>,
    enumerators: Vec<Enumerator<'s>>,
    ends_with_comma: bool,
) -> Spec<'s>
    ensures { bare_specifier_of result ≡ Enumerated tt (named_tag (option_map (λ text. text.now) tag.entry)) (enumerator_row (map bare_enumerator_of enumerators.entry.items)) ends_with_comma }
{
    match tag {
        None => Spec::Enumeration(Enumeration {
            at: nowhere(),
            tag: None,
            enumerators,
            ends_with_comma,
        }),
        Some(text) => Spec::Enumeration(Enumeration {
            at: nowhere(),
            tag: Some(identifier(text)),
            enumerators,
            ends_with_comma,
        }),
    }
}

/// A declaration of members.
pub fn member_declaration<'s>(specs: Vec<Spec<'s>>, fields: Vec<Field<'s>>) -> Member<'s>
    ensures { bare_member_of result ≡ member_declaration tt (specifier_row (map bare_specifier_of specs.entry.items)) (field_row (map bare_field_of fields.entry.items)) }
{
    Member {
        at: nowhere(),
        specs,
        fields,
    }
}

/// A declarator of a member, with its width.
#[tactic(auto, unfolding(p10_syn::specs::Built::bare_of, p10_syn::specs::Built::bare_field_of, p10_syn::specs::Built::bare_declarator_of))]
pub fn field<'s>(
    alloc: Global,
    declarator: Declarator<'s>,
    width: Option<Expr<'s>>,
) -> Result<Field<'s>, AllocError>
    ensures { IfOk result (λ x. bare_field_of x ≡ field tt (bare_declarator_of declarator.entry) (bare_optional_of width.entry)) }
{
    match width {
        None => Ok(Field {
            at: nowhere(),
            declarator,
            width: None,
        }),
        Some(width) => {
            let width = boxed(alloc, width)?;
            Ok(Field {
                at: nowhere(),
                declarator,
                width: Some(width),
            })
        }
    }
}

/// A constant of an enumeration, with its value.
#[tactic(auto, unfolding(p10_syn::specs::Built::bare_of, p10_syn::specs::Built::bare_enumerator_of))]
pub fn enumerator<'s>(
    alloc: Global,
    name: &'s [u8],
    value: Option<Expr<'s>>,
) -> Result<Enumerator<'s>, AllocError>
    ensures { IfOk result (λ x. bare_enumerator_of x ≡ enumerator tt (named name.now) (bare_optional_of value.entry)) }
{
    match value {
        None => Ok(Enumerator {
            at: nowhere(),
            name: identifier(name),
            value: None,
        }),
        Some(value) => {
            let value = boxed(alloc, value)?;
            Ok(Enumerator {
                at: nowhere(),
                name: identifier(name),
                value: Some(value),
            })
        }
    }
}

/// A name as a declarator.
pub fn declared<'s>(name: &'s [u8]) -> Declarator<'s>
    ensures { bare_declarator_of result ≡ Named (named name.now) }
{
    Declarator::Named(identifier(name))
}

/// A declarator that spells no word.
pub fn nameless<'s>() -> Declarator<'s>
    ensures { bare_declarator_of result ≡ Unnamed tt }
{
    Declarator::Unnamed(nowhere())
}

/// A qualifier of a pointer.
pub fn qualifier(sign: Sign) -> Qualifier
    ensures { bare_qualifier_of result ≡ record { place = tt; word = sign } }
{
    Qualifier {
        at: nowhere(),
        sign,
    }
}

/// `*` with its qualifiers, and the declarator after it.
pub fn pointer<'s>(
    alloc: Global,
    qualifiers: Vec<Qualifier>,
    inner: Declarator<'s>,
) -> Result<Declarator<'s>, AllocError>
    ensures { IfOk result (λ x. bare_declarator_of x ≡ Pointer tt (map bare_qualifier_of qualifiers.items) (bare_declarator_of inner.entry)) }
{
    let inner = boxed(alloc, inner)?;
    Ok(Declarator::Pointer(nowhere(), qualifiers, inner))
}

/// A declarator in parentheses.
pub fn parenthesised<'s>(alloc: Global, inner: Declarator<'s>) -> Result<Declarator<'s>, AllocError>
    ensures { IfOk result (λ x. bare_declarator_of x ≡ Parenthesised tt (bare_declarator_of inner.entry)) }
{
    Ok(Declarator::Parenthesised(nowhere(), boxed(alloc, inner)?))
}

/// An array, with its length.
pub fn array<'s>(
    alloc: Global,
    inner: Declarator<'s>,
    length: Option<Expr<'s>>,
) -> Result<Declarator<'s>, AllocError>
    ensures { IfOk result (λ x. bare_declarator_of x ≡ Array tt (bare_declarator_of inner.entry) tt (bare_optional_of length.entry)) }
{
    let inner = boxed(alloc, inner)?;
    match length {
        None => Ok(Declarator::Array(nowhere(), inner, nowhere(), None)),
        Some(length) => {
            let length = boxed(alloc, length)?;
            Ok(Declarator::Array(nowhere(), inner, nowhere(), Some(length)))
        }
    }
}

/// A function with its parameters.
pub fn function<'s>(
    alloc: Global,
    inner: Declarator<'s>,
    parameters: Vec<Parameter<'s>>,
    has_ellipsis: bool,
) -> Result<Declarator<'s>, AllocError>
    ensures { IfOk result (λ x. bare_declarator_of x ≡ Function tt (bare_declarator_of inner.entry) tt (parameter_row (map bare_parameter_of parameters.entry.items)) has_ellipsis) }
{
    let inner = boxed(alloc, inner)?;
    Ok(Declarator::Function(nowhere(), inner, nowhere(), parameters, has_ellipsis))
}

/// A parameter.
pub fn parameter<'s>(specs: Vec<Spec<'s>>, declarator: Declarator<'s>) -> Parameter<'s>
    ensures { bare_parameter_of result ≡ parameter tt (specifier_row (map bare_specifier_of specs.entry.items)) (bare_declarator_of declarator.entry) }
{
    Parameter {
        at: nowhere(),
        specs,
        declarator,
    }
}
