//! The types that specifiers and declarators name, as far as they declare nothing (C99 6.7.2, 6.7.3, 6.7.5, 6.7.6).

ghost use Rattle.std.specs.Prelude.{◌≡◌, IfOk, Some, None, Ok, option_map, option_copied, map};
ghost use Rattle.p10_core.specs.Types.{plain_type};
ghost use Rattle.p10_core.specs.Views.{plain_types};
ghost use Rattle.p10_syn.specs.Trees.{specifier_row};
ghost use Rattle.p10_syn.specs.Built.{specifier_of, tag_of, identifier_of};
ghost use Rattle.p10_elabx.specs.First.{only_first, on, pair, lift, refused_where};
ghost use Rattle.p10_elabx.specs.Views.{meaning_of};
ghost use Rattle.p10_elabx.specs.PlainScopes.{plain_scope};
ghost use Rattle.p10_elabx.specs.TypeNames.{keyword_rule, typedef_rule, tag_found, structure_rule, enumeration_rule, tag_rule, enum_rule, specifier_rule, later, with_specifier, specifiers_found, specified_type, specifier_at, last_specifier_at, from_to, specifiers_at, specifiers_judged, a_type};
ghost use Rattle.p10_elabx.specs.Built.{ruled_named, ruled_lent, ruled_type, ruled_shape, judged_shape};

use crate::judged::{joined, shape_refused};
use crate::named::Named;
use crate::places::qualified;
use crate::problem::Problem;
use crate::scope::Scope;
use crate::shape::Shape;
use crate::words::{Said, is_bad_mixture, said_of, type_of_words};
use p10_base::{At, SubsetCode};
use p10_core::{CType, TypeForm};
use p10_syn::{Identifier, Sign, Spec};
use std::alloc::{AllocError, Global};

/// A keyword where a type is named: storage, `inline` and other qualifiers than `const` don't stand there.
fn keyword_rule(at: At, word: Sign) -> Result<Option<CType>, Option<Problem>>
    ensures { ruled_named result ≡ keyword_rule at word }
{
    match word {
        Sign::Float | Sign::Double | Sign::Complex | Sign::Imaginary => Err(Some(Problem {
            code: SubsetCode::FloatingType,
            at,
        })),
        Sign::Volatile
        | Sign::Restrict
        | Sign::Inline
        | Sign::Typedef
        | Sign::Extern
        | Sign::Static
        | Sign::Auto
        | Sign::Register => Err(Some(Problem {
            code: SubsetCode::BadSpecifier,
            at,
        })),
        _ => Ok(None),
    }
}

/// A typedef name.
pub fn typedef_rule(
    alloc: Global,
    at: At,
    what: Option<&Named>,
) -> Result<Result<Option<CType>, Option<Problem>>, AllocError>
    ensures { IfOk result (λ r. ruled_named r ≡ typedef_rule at (option_map meaning_of (option_copied what.entry))) }
{
    match what {
        Some(Named::Typedef(ty)) => Ok(Ok(Some(ty.copy(alloc)?))),
        Some(Named::Unknown) => Ok(Err(None)),
        _ => Ok(Err(Some(Problem {
            code: SubsetCode::UnknownName,
            at,
        }))),
    }
}

/// The type that a tag names; an unknown one is refused at a place that is given.
fn tag_found<'n>(at: At, what: Option<&'n Named>) -> Result<&'n CType, Option<Problem>>
    ensures { ruled_lent result ≡ tag_found at (option_map meaning_of (option_copied what.entry)) }
{
    match what {
        Some(Named::Tag(ty)) => Ok(ty),
        Some(Named::UnknownTag) => Err(None),
        None => Err(Some(Problem {
            code: SubsetCode::UnknownName,
            at,
        })),
        Some(
            Named::Var {
                number: _,
                ty: _,
                frame: _,
            }
            | Named::Global {
                number: _,
                ty: _,
                sensor: _,
            }
            | Named::Function {
                number: _,
                params: _,
                result: _,
            }
            | Named::Constant(_)
            | Named::Typedef(_)
            | Named::Unknown,
        ) => Err(Some(Problem {
            code: SubsetCode::UnknownName,
            at,
        })),
    }
}

/// The tag of a structure.
fn structure_rule(name_at: At, what: Option<&Named>) -> Result<Option<CType>, Option<Problem>>
    ensures { ruled_named result ≡ structure_rule name_at (option_map meaning_of (option_copied what.entry)) }
{
    match tag_found(name_at, what) {
        Ok(ty) => match &ty.form {
            TypeForm::Struct(number) => Ok(Some(CType {
                is_const: ty.is_const,
                form: TypeForm::Struct(*number),
            })),
            _ => Err(Some(Problem {
                code: SubsetCode::DefinedTwice,
                at: name_at,
            })),
        },
        Err(r) => Err(r),
    }
}

/// The tag of an enumeration: an unknown one is refused at the specifier.
fn enumeration_rule(
    at: At,
    name_at: At,
    what: Option<&Named>,
) -> Result<Option<CType>, Option<Problem>>
    ensures { ruled_named result ≡ enumeration_rule at name_at (option_map meaning_of (option_copied what.entry)) }
{
    match tag_found(at, what) {
        Ok(ty) => match &ty.form {
            TypeForm::Int(kind) => Ok(Some(CType {
                is_const: ty.is_const,
                form: TypeForm::Int(*kind),
            })),
            _ => Err(Some(Problem {
                code: SubsetCode::DefinedTwice,
                at: name_at,
            })),
        },
        Err(r) => Err(r),
    }
}

/// `struct` with a tag, or `union`.
fn tag_rule(
    scope: &Scope<'_>,
    at: At,
    sign: Sign,
    tag: Option<Identifier<'_>>,
) -> Result<Option<CType>, Option<Problem>>
    ensures { ruled_named result ≡ tag_rule at sign (plain_scope scope.now) (tag_of tag.entry) }
{
    match (sign, tag) {
        (Sign::Union, _) => Err(Some(Problem {
            code: SubsetCode::UnionOrBitField,
            at,
        })),
        (_, None) => Err(Some(Problem {
            code: SubsetCode::BadSpecifier,
            at,
        })),
        (_, Some(tag)) => structure_rule(tag.at, scope.tagged(tag.text)),
    }
}

/// `enum` with a tag.
fn enum_rule(
    scope: &Scope<'_>,
    at: At,
    tag: Option<Identifier<'_>>,
) -> Result<Option<CType>, Option<Problem>>
    ensures { ruled_named result ≡ enum_rule at (plain_scope scope.now) (tag_of tag.entry) }
{
    match tag {
        None => Err(Some(Problem {
            code: SubsetCode::BadSpecifier,
            at,
        })),
        Some(tag) => enumeration_rule(at, tag.at, scope.tagged(tag.text)),
    }
}

/// What one specifier names, where nothing is declared.
#[tactic(auto, using(crate::proofs::SpecifierTrees::structure_names, crate::proofs::SpecifierTrees::enumeration_names))]
fn specifier_rule(
    alloc: Global,
    scope: &Scope<'_>,
    spec: &Spec<'_>,
) -> Result<Result<Option<CType>, Option<Problem>>, AllocError>
    ensures { IfOk result (λ r. ruled_named r ≡ specifier_rule (plain_scope scope.now) (specifier_of spec.now)) }
{
    match spec {
        Spec::Keyword(at, word) => Ok(keyword_rule(*at, *word)),
        Spec::Typedef(name) => typedef_rule(alloc, name.at, scope.named(name.text)),
        Spec::Structure(structure) => Ok(tag_rule(
            scope,
            structure.at,
            structure.sign,
            structure.tag,
        )),
        Spec::Enumeration(enumeration) => Ok(enum_rule(scope, enumeration.at, enumeration.tag)),
    }
}

/// One specifier more.
fn with_specifier(
    a: Result<Option<CType>, Option<Problem>>,
    b: Result<Option<CType>, Option<Problem>>,
) -> Result<Option<CType>, Option<Problem>>
    ensures { lift (ruled_named result) ≡ with_specifier only_first (lift (ruled_named a)) (ruled_named b) }
{
    match (a, b) {
        (Ok(before), Ok(None)) => Ok(before),
        (Ok(_), Ok(Some(ty))) => Ok(Some(ty)),
        (Ok(_), Err(q)) => Err(q),
        (Err(r), Ok(_)) => Err(r),
        (Err(r), Err(q)) => Err(joined(r, q)),
    }
}

/// What specifiers name.
fn specifiers_found(
    alloc: Global,
    scope: &Scope<'_>,
    specs: &[Spec<'_>],
) -> Result<Result<Option<CType>, Option<Problem>>, AllocError>
    ensures { IfOk result (λ r. lift (ruled_named r) ≡ specifiers_found only_first (plain_scope scope.now) (Ok None) (specifier_row (map specifier_of specs.now))) }
{
    let mut found = Ok(None);
    for spec in specs {
        let one = specifier_rule(alloc, scope, spec)?;
        found = with_specifier(found, one);
    }
    Ok(found)
}

/// The type that a mixture of words and names is, with its mark.
pub fn specified_type(
    alloc: Global,
    said: &Said,
    named: Option<CType>,
) -> Result<Result<CType, Option<Problem>>, AllocError>
    ensures { IfOk result (λ r. ruled_type r ≡ specified_type said.now (option_map plain_type named)) }
{
    match named {
        Some(ty) => Ok(Ok(qualified(alloc, said.is_const, &ty)?)),
        None => match type_of_words(&said.words) {
            Some(ty) => Ok(Ok(qualified(alloc, said.is_const, &ty)?)),
            None => Ok(Err(None)),
        },
    }
}

/// The place of a specifier.
#[tactic(auto, using(crate::proofs::SpecifierTrees::structure_place, crate::proofs::SpecifierTrees::enumeration_place))]
fn specifier_at(spec: &Spec<'_>) -> At
    ensures { result ≡ specifier_at (specifier_of spec.now) }
{
    match spec {
        Spec::Keyword(at, _) => *at,
        Spec::Typedef(name) => name.at,
        Spec::Structure(structure) => structure.at,
        Spec::Enumeration(enumeration) => enumeration.at,
    }
}

/// The place of all specifiers, from the first to the last; where there are none, one that is given.
pub fn specifiers_at(at: At, specs: &[Spec<'_>]) -> At
    ensures { result ≡ specifiers_at at (specifier_row (map specifier_of specs.now)) }
{
    match (specs.first(), specs.last()) {
        (Some(first), Some(last)) => from_to(specifier_at(first), specifier_at(last)),
        _ => at,
    }
}

/// From the first word of one tree to the last of another.
fn from_to(a: At, b: At) -> At
    ensures { result ≡ from_to a b }
{
    At {
        first: a.first,
        past: b.past,
        span: a.span.to(b.span),
    }
}

/// What is found in specifiers where nothing is declared, at a tree.
#[tactic(auto, unfolding(crate::specs::TypeNames::specifiers_judged))]
pub fn specifiers_judged(
    alloc: Global,
    scope: &Scope<'_>,
    at: At,
    specs: &[Spec<'_>],
) -> Result<Result<Shape, Option<Problem>>, AllocError>
    ensures { IfOk result (λ r. judged_shape r ≡ specifiers_judged only_first (plain_scope scope.now) at (specifier_row (map specifier_of specs.now))) }
{
    let said = said_of(specs);
    let named = specifiers_found(alloc, scope, specs)?;
    let found = plain_found(alloc, &said, named)?;
    let own = Problem {
        code: SubsetCode::BadSpecifier,
        at: specifiers_at(at, specs),
    };
    Ok(shape_refused(is_bad_mixture(&said), own, found))
}

/// The type of specifiers, if what they name is found.
fn plain_found(
    alloc: Global,
    said: &Said,
    named: Result<Option<CType>, Option<Problem>>,
) -> Result<Result<Shape, Option<Problem>>, AllocError>
    ensures { IfOk result (λ r. lift (ruled_shape r) ≡ on (on (lift (ruled_named named)) (specified_type said.now)) (λ t. Ok (a_type t))) }
{
    match named {
        Ok(named) => match specified_type(alloc, said, named)? {
            Ok(ty) => Ok(Ok(Shape::Plain(ty))),
            Err(r) => Ok(Err(r)),
        },
        Err(r) => Ok(Err(r)),
    }
}
