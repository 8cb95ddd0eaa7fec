//! Structures that a type name in an expression is the first to name: it declares them (C99 6.7.2.3p8).

ghost use Rattle.std.specs.Prelude.{◌≡◌, IfOk, length, map};
ghost use Rattle.p10_syn.specs.Trees.{expression_row, specifier_row, parameter_row};
ghost use Rattle.p10_syn.specs.Built.{tag_of as own_tag, expression_of, specifier_of, kind_of, declarator_of, parameter_of};
ghost use Rattle.p10_elabx.specs.Scopes.{tagged};
ghost use Rattle.p10_elabx.specs.PlainScopes.{plain_scope};
ghost use Rattle.p10_elabd.specs.Tags.{structure_tag, tag_of, tags_of, tags_in, tags_in_all, tags_in_type, tags_in_declarator, tags_in_parameters, tags_in_parameter, with_tag, with_unknown, with_tags};

use p10_core::CType;
use p10_elabx::{Named, Scope};
use p10_syn::{Declarator, Expr, Form, Identifier, Parameter, Sign, Spec, TypeName};
use std::alloc::AllocError;

/// Declares a structure with its tag, which isn't complete, in the innermost block, and gives its number.
pub fn add_tag<'s>(scope: &mut Scope<'s>, name: &'s [u8]) -> Result<u32, AllocError>
    ensures number { IfOk result (λ n. n ≡ length (plain_scope scope.old).structures) }
    ensures scope { IfOk result (λ _. plain_scope scope.new ≡ with_tag (plain_scope scope.old) name.now) }
{
    let number = scope.types.add(Some(name))?;
    scope.declare(name, Named::Tag(CType::structure(number)))?;
    Ok(number)
}

/// Declares a structure with its tag where nothing by this name is.
fn add_unknown<'s>(scope: &mut Scope<'s>, name: &'s [u8]) -> Result<(), AllocError>
    ensures { IfOk result (λ _. plain_scope scope.new ≡ with_unknown (tagged (plain_scope scope.old) name.now) (plain_scope scope.old) name.now) }
{
    let known = scope.tagged(name).is_some();
    if !known {
        add_tag(scope, name)?;
    }
    Ok(())
}

/// Declares the tag after `struct`.
fn add_structure<'s>(
    scope: &mut Scope<'s>,
    sign: Sign,
    tag: Option<Identifier<'s>>,
) -> Result<(), AllocError>
    ensures { IfOk result (λ _. plain_scope scope.new ≡ with_tags (plain_scope scope.old) (structure_tag sign (own_tag tag.entry))) }
{
    match (sign, tag) {
        (Sign::Struct, Some(tag)) => add_unknown(scope, tag.text),
        (_, _) => Ok(()),
    }
}

/// Declares the tag that a specifier names.
#[tactic(auto, using(crate::proofs::SpecifierTrees::structure_tags, crate::proofs::SpecifierTrees::enumeration_tags))]
fn add_specifier<'s>(scope: &mut Scope<'s>, spec: &Spec<'s>) -> Result<(), AllocError>
    ensures { IfOk result (λ _. plain_scope scope.new ≡ with_tags (plain_scope scope.old) (tag_of (specifier_of spec.now))) }
{
    match spec {
        Spec::Structure(structure) => add_structure(scope, structure.sign, structure.tag),
        Spec::Keyword(_, _) => Ok(()),
        Spec::Typedef(_) => Ok(()),
        Spec::Enumeration(_) => Ok(()),
    }
}

/// Declares the tags that specifiers name.
fn add_specifiers<'s>(scope: &mut Scope<'s>, specs: &[Spec<'s>]) -> Result<(), AllocError>
    ensures { IfOk result (λ _. plain_scope scope.new ≡ with_tags (plain_scope scope.old) (tags_of (specifier_row (map specifier_of specs.now)))) }
{
    for spec in specs {
        add_specifier(scope, spec)?;
    }
    Ok(())
}

/// Declares the tags in the type names of an expression.
#[cycle(tags)]
pub fn add_tags<'s>(scope: &mut Scope<'s>, e: &Expr<'s>) -> Result<(), AllocError>
    ensures { IfOk result (λ _. plain_scope scope.new ≡ with_tags (plain_scope scope.old) (tags_in (expression_of e.now))) }
{
    match &e.form {
        Form::Name(_) => Ok(()),
        Form::Number(_) => Ok(()),
        Form::Char(_) => Ok(()),
        Form::Str(_) => Ok(()),
        Form::Unary(_, a) => add_tags(scope, a),
        Form::Step(_, _, a) => add_tags(scope, a),
        Form::Binary(_, a, b) => {
            add_tags(scope, a)?;
            add_tags(scope, b)?;
            Ok(())
        }
        Form::Assign(_, a, b) => {
            add_tags(scope, a)?;
            add_tags(scope, b)?;
            Ok(())
        }
        Form::Cond(c, a, b) => {
            add_tags(scope, c)?;
            add_tags(scope, a)?;
            add_tags(scope, b)?;
            Ok(())
        }
        Form::Call(f, all) => {
            add_tags(scope, f)?;
            add_all(scope, all)?;
            Ok(())
        }
        Form::Index(a, b) => {
            add_tags(scope, a)?;
            add_tags(scope, b)?;
            Ok(())
        }
        Form::Member(a, _) => add_tags(scope, a),
        Form::Arrow(a, _) => add_tags(scope, a),
        Form::Cast(t, a) => {
            add_type(scope, t)?;
            add_tags(scope, a)?;
            Ok(())
        }
        Form::SizeofExpr(a) => add_tags(scope, a),
        Form::SizeofType(t) => {
            add_type(scope, t)?;
            Ok(())
        }
        Form::Comma(all) => {
            add_all(scope, all)?;
            Ok(())
        }
    }
}

/// Declares the tags in expressions in a row.
#[cycle(tags)]
fn add_all<'s>(scope: &mut Scope<'s>, all: &[Expr<'s>]) -> Result<(), AllocError>
    ensures { IfOk result (λ _. plain_scope scope.new ≡ with_tags (plain_scope scope.old) (tags_in_all (expression_row (map expression_of all.now)))) }
{
    for e in all {
        add_tags(scope, e)?;
    }
    Ok(())
}

/// Declares the tags in a type name.
#[cycle(tags)]
fn add_type<'s>(scope: &mut Scope<'s>, t: &TypeName<'s>) -> Result<(), AllocError>
    ensures { IfOk result (λ _. plain_scope scope.new ≡ with_tags (plain_scope scope.old) (tags_in_type (kind_of t.now))) }
{
    add_specifiers(scope, &t.specs)?;
    add_declarator(scope, &t.declarator)?;
    Ok(())
}

/// Declares the tags in a type name's declarator, with those among its parameters.
#[cycle(tags)]
fn add_declarator<'s>(scope: &mut Scope<'s>, d: &Declarator<'s>) -> Result<(), AllocError>
    ensures { IfOk result (λ _. plain_scope scope.new ≡ with_tags (plain_scope scope.old) (tags_in_declarator (declarator_of d.now))) }
{
    match d {
        Declarator::Named(_) => Ok(()),
        Declarator::Unnamed(_) => Ok(()),
        Declarator::Pointer(_, _, inner) => add_declarator(scope, inner),
        Declarator::Parenthesised(_, inner) => add_declarator(scope, inner),
        Declarator::Array(_, inner, _, length) => match length {
            None => add_declarator(scope, inner),
            Some(e) => {
                add_declarator(scope, inner)?;
                add_tags(scope, e)?;
                Ok(())
            }
        },
        Declarator::Function(_, inner, _, all, _) => {
            add_declarator(scope, inner)?;
            add_parameters(scope, all)?;
            Ok(())
        }
    }
}

/// Declares the tags among parameters.
#[cycle(tags)]
fn add_parameters<'s>(scope: &mut Scope<'s>, all: &[Parameter<'s>]) -> Result<(), AllocError>
    ensures { IfOk result (λ _. plain_scope scope.new ≡ with_tags (plain_scope scope.old) (tags_in_parameters (parameter_row (map parameter_of all.now)))) }
{
    for one in all {
        add_parameter(scope, one)?;
    }
    Ok(())
}

/// Declares the tags in a parameter.
#[cycle(tags)]
fn add_parameter<'s>(scope: &mut Scope<'s>, one: &Parameter<'s>) -> Result<(), AllocError>
    ensures { IfOk result (λ _. plain_scope scope.new ≡ with_tags (plain_scope scope.old) (tags_in_parameter (parameter_of one.now))) }
{
    add_specifiers(scope, &one.specs)?;
    add_declarator(scope, &one.declarator)?;
    Ok(())
}
