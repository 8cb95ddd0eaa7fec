//! The places of the operands of expressions.

ghost use Rattle.std.specs.Prelude.{◌≡◌, ◌+◌, ◌<◌, ◌^◌};
ghost use Rattle.p10_syn.specs.Trees.{Step, Member, Arrow, SizeofType};
ghost use Rattle.p10_syn.specs.Bare.{bare, bare_form, bare_name, bare_type};
ghost use Rattle.p10_syn.specs.Built.{identifier_of, expression_of, form_of, kind_of};
ghost use Rattle.p10_syn.specs.Counts.{count_form};
ghost use Rattle.p10_syn.specs.Places.{locate_form};
ghost use Rattle.p10_place.specs.Roots.{source_of};

use crate::expression::{set_expression, set_list, set_name, set_type};
use crate::root::Root;
use p10_syn::{Expr, Form, Identifier, Side, Sign, TypeName};

/// A form with the places of its operands set, and the number of the word past it.
#[cycle(setting)]
pub(crate) fn set_form<'s>(root: &Root<'_, '_>, first: usize, form: Form<'s>) -> (Form<'s>, usize)
    requires { first + count_form (bare_form (form_of form)) < 2 ^ 64 }
    ensures placed { form_of result.0 ≡ locate_form (source_of root.now) first (bare_form (form_of form.entry)) }
    ensures past { result.1 ≡ first + count_form (bare_form (form_of form.entry)) }
{
    match form {
        Form::Name(mut name) => {
            let past = set_name(root, first, &mut name);
            (Form::Name(name), past)
        }
        Form::Number(text) => (Form::Number(text), first + 1),
        Form::Char(text) => (Form::Char(text), first + 1),
        Form::Str(texts) => {
            let count = texts.len();
            (Form::Str(texts), first + count)
        }
        Form::Unary(sign, mut operand) => {
            let past = set_expression(root, first + 1, &mut operand);
            (Form::Unary(sign, operand), past)
        }
        Form::Step(side, sign, operand) => set_step(root, first, side, sign, operand),
        Form::Binary(sign, mut left, mut right) => {
            let past = set_expression(root, first, &mut left);
            let past = set_expression(root, past + 1, &mut right);
            (Form::Binary(sign, left, right), past)
        }
        Form::Assign(sign, mut left, mut right) => {
            let past = set_expression(root, first, &mut left);
            let past = set_expression(root, past + 1, &mut right);
            (Form::Assign(sign, left, right), past)
        }
        Form::Cond(mut test, mut yes, mut no) => {
            let past = set_expression(root, first, &mut test);
            let past = set_expression(root, past + 1, &mut yes);
            let past = set_expression(root, past + 1, &mut no);
            (Form::Cond(test, yes, no), past)
        }
        Form::Call(mut callee, mut arguments) => {
            let past = set_expression(root, first, &mut callee);
            let past = set_list(root, past + 1, &mut arguments);
            (Form::Call(callee, arguments), past + 1)
        }
        Form::Index(mut left, mut right) => {
            let past = set_expression(root, first, &mut left);
            let past = set_expression(root, past + 1, &mut right);
            (Form::Index(left, right), past + 1)
        }
        Form::Member(whole, name) => set_selected(root, first, whole, name),
        Form::Arrow(whole, name) => set_arrow(root, first, whole, name),
        Form::Cast(mut kind, mut operand) => {
            let past = set_type(root, first + 1, &mut kind);
            let past = set_expression(root, past + 1, &mut operand);
            (Form::Cast(kind, operand), past)
        }
        Form::SizeofExpr(mut operand) => {
            let past = set_expression(root, first + 1, &mut operand);
            (Form::SizeofExpr(operand), past)
        }
        Form::SizeofType(kind) => set_sizeof_type(root, first, kind),
        Form::Comma(mut operands) => {
            let past = set_list(root, first, &mut operands);
            (Form::Comma(operands), past)
        }
    }
}

/// Sets the places in the operand of `++` or `--`.
#[cycle(setting)]
fn set_step<'s>(
    root: &Root<'_, '_>,
    first: usize,
    side: Side,
    sign: Sign,
    mut operand: Box<Expr<'s>>,
) -> (Form<'s>, usize)
    requires { first + count_form (Step side sign (bare (expression_of operand.value))) < 2 ^ 64 }
    ensures placed { form_of result.0 ≡ locate_form (source_of root.now) first (Step side sign (bare (expression_of operand.entry.value))) }
    ensures past { result.1 ≡ first + count_form (Step side sign (bare (expression_of operand.entry.value))) }
{
    match side {
        Side::Before => {
            let past = set_expression(root, first + 1, &mut operand);
            (Form::Step(Side::Before, sign, operand), past)
        }
        Side::After => {
            let past = set_expression(root, first, &mut operand);
            (Form::Step(Side::After, sign, operand), past + 1)
        }
    }
}

/// Sets the places in what a member is of, and of its name after `.`.
#[cycle(setting)]
fn set_selected<'s>(
    root: &Root<'_, '_>,
    first: usize,
    mut whole: Box<Expr<'s>>,
    mut name: Identifier<'s>,
) -> (Form<'s>, usize)
    requires { first + count_form (Member (bare (expression_of whole.value)) (bare_name (identifier_of name))) < 2 ^ 64 }
    ensures placed { form_of result.0 ≡ locate_form (source_of root.now) first (Member (bare (expression_of whole.entry.value)) (bare_name (identifier_of name.entry))) }
    ensures past { result.1 ≡ first + count_form (Member (bare (expression_of whole.entry.value)) (bare_name (identifier_of name.entry))) }
{
    let past = set_expression(root, first, &mut whole);
    let past = set_name(root, past + 1, &mut name);
    (Form::Member(whole, name), past)
}

/// Sets the places in what points to that which a member is of, and of its name after `->`.
#[cycle(setting)]
fn set_arrow<'s>(
    root: &Root<'_, '_>,
    first: usize,
    mut whole: Box<Expr<'s>>,
    mut name: Identifier<'s>,
) -> (Form<'s>, usize)
    requires { first + count_form (Arrow (bare (expression_of whole.value)) (bare_name (identifier_of name))) < 2 ^ 64 }
    ensures placed { form_of result.0 ≡ locate_form (source_of root.now) first (Arrow (bare (expression_of whole.entry.value)) (bare_name (identifier_of name.entry))) }
    ensures past { result.1 ≡ first + count_form (Arrow (bare (expression_of whole.entry.value)) (bare_name (identifier_of name.entry))) }
{
    let past = set_expression(root, first, &mut whole);
    let past = set_name(root, past + 1, &mut name);
    (Form::Arrow(whole, name), past)
}

/// Sets the places in a type whose size is asked for.
#[cycle(setting)]
fn set_sizeof_type<'s>(
    root: &Root<'_, '_>,
    first: usize,
    mut kind: Box<TypeName<'s>>,
) -> (Form<'s>, usize)
    requires { first + count_form (SizeofType (bare_type (kind_of kind.value))) < 2 ^ 64 }
    ensures placed { form_of result.0 ≡ locate_form (source_of root.now) first (SizeofType (bare_type (kind_of kind.entry.value))) }
    ensures past { result.1 ≡ first + count_form (SizeofType (bare_type (kind_of kind.entry.value))) }
{
    let past = set_type(root, first + 2, &mut kind);
    (Form::SizeofType(kind), past + 1)
}
