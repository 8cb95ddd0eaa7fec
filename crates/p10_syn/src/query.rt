//! What readers ask of trees.

ghost use Rattle.std.specs.Prelude.{◌≡◌, map, option_map};
ghost use Rattle.p10_syn.specs.Precedence.{level_of, binary_level as level_between};
ghost use Rattle.p10_syn.specs.Declaring.{name_in, makes_types as make_types, is_typedef as makes_type, is_typedef_sign};
ghost use Rattle.p10_syn.specs.Forms.{after_saying, said_by_keyword, is_type_word as names_type};
ghost use Rattle.p10_syn.specs.Trees.{specifier_row};
ghost use Rattle.p10_syn.specs.Built.{bare_of, bare_specifier_of, bare_declarator_of};

use crate::place::Side;
use crate::setting::Said;
use crate::sign::Sign;
use crate::tree::{Declarator, Expr, Form, Spec};

/// How tightly an expression holds together: 1 comma, 2 assignment, 3 `?:`, 4 to 13 operators between
/// operands, 14 casts, 15 unary, 16 postfix.
pub fn level(e: &Expr<'_>) -> u8
    ensures { result ≡ level_of (bare_of e.now) }
{
    if e.parens > 0 {
        return 16;
    }
    match &e.form {
        Form::Name(_) | Form::Number(_) | Form::Char(_) | Form::Str(_) => 16,
        Form::Unary(_, _) => 15,
        Form::Step(Side::Before, _, _) => 15,
        Form::Step(Side::After, _, _) => 16,
        Form::Binary(sign, _, _) => binary_level(*sign),
        Form::Assign(_, _, _) => 2,
        Form::Cond(_, _, _) => 3,
        Form::Call(_, _) | Form::Index(_, _) | Form::Member(_, _) | Form::Arrow(_, _) => 16,
        Form::Cast(_, _) => 14,
        Form::SizeofExpr(_) | Form::SizeofType(_) => 15,
        Form::Comma(_) => 1,
    }
}

/// The level of an operator between two operands, from 4 to 13; 0 for any other sign.
pub fn binary_level(sign: Sign) -> u8
    ensures { result ≡ level_between sign }
{
    match sign {
        Sign::OrOr => 4,
        Sign::AndAnd => 5,
        Sign::Bar => 6,
        Sign::Caret => 7,
        Sign::And => 8,
        Sign::Equal | Sign::NotEqual => 9,
        Sign::Less | Sign::Greater | Sign::LessEqual | Sign::GreaterEqual => 10,
        Sign::ShiftLeft | Sign::ShiftRight => 11,
        Sign::Plus | Sign::Minus => 12,
        Sign::Star | Sign::Slash | Sign::Percent => 13,
        _ => 0,
    }
}

/// The name that a declarator declares.
pub fn name_of<'s>(declarator: &Declarator<'s>) -> Option<&'s [u8]>
    ensures { option_map (λ name. name.now) result ≡ name_in (bare_declarator_of declarator.now) }
{
    match declarator {
        Declarator::Named(name) => Some(name.text),
        Declarator::Unnamed(_) => None,
        Declarator::Pointer(_, _, inner) => name_of(inner),
        Declarator::Parenthesised(_, inner) => name_of(inner),
        Declarator::Array(_, inner, _, _) => name_of(inner),
        Declarator::Function(_, inner, _, _, _) => name_of(inner),
    }
}

/// What specifiers say of a type after this one.
#[tactic(auto, unfolding(crate::specs::Built::bare_specifier_of), using(crate::proofs::Bodies::structure_says, crate::proofs::Bodies::enumeration_says))]
pub fn said_after(said: Said, spec: &Spec<'_>) -> Said
    ensures { result ≡ after_saying said (bare_specifier_of spec.now) }
{
    match spec {
        Spec::Keyword(_, sign) => {
            if is_type_word(*sign) {
                Said::Words
            } else {
                said
            }
        }
        Spec::Typedef(_) => Said::TypedefName,
        Spec::Structure(_) => Said::Words,
        Spec::Enumeration(_) => Said::Words,
    }
}

/// Whether a sign is a word of a type (C99 6.7.2).
pub fn is_type_word(sign: Sign) -> bool
    ensures { result ≡ names_type sign }
{
    matches!(
        sign,
        Sign::Void
            | Sign::Char
            | Sign::Short
            | Sign::Int
            | Sign::Long
            | Sign::Float
            | Sign::Double
            | Sign::Signed
            | Sign::Unsigned
            | Sign::Bool
            | Sign::Complex
            | Sign::Imaginary
    )
}

/// Whether declarators after these specifiers declare typedef names (C99 6.7.7).
pub fn makes_types(specs: &[Spec<'_>]) -> bool
    ensures { result ≡ make_types (specifier_row (map bare_specifier_of specs.now)) }
{
    let mut rest = specs;
    while let [first, others @ ..] = rest {
        if is_typedef(first) {
            return true;
        }
        rest = others;
    }
    false
}

#[tactic(auto, unfolding(crate::specs::Built::bare_specifier_of), using(crate::proofs::Bodies::structure_declares, crate::proofs::Bodies::enumeration_declares))]
fn is_typedef(spec: &Spec<'_>) -> bool
    ensures { result ≡ makes_type (bare_specifier_of spec.now) }
{
    match spec {
        Spec::Keyword(_, sign) => matches!(*sign, Sign::Typedef),
        Spec::Typedef(_) => false,
        Spec::Structure(_) => false,
        Spec::Enumeration(_) => false,
    }
}
