//! Makes trees of expressions of their parts (C99 6.5).

ghost use Rattle.std.specs.Prelude.{◌≡◌, ◌+◌, ◌<◌, ◌^◌, IfOk, map};
ghost use Rattle.p10_syn.specs.Trees.{expression, Name, Number, Character, Strings, Unary, Step, Binary, Assign, Conditional, Call, Index, Member as Selected, Arrow, Cast, SizeofExpression, SizeofType, Comma, MoreExpressions, expression_row};
ghost use Rattle.p10_syn.specs.Built.{bare_of, bare_kind_of, named, grouped as in_parentheses};

use crate::identifiers::identifier;
use p10_base::{boxed, boxed_pair, boxed_triple};
use p10_syn::{Expr, Form, Member, Side, Sign, TypeName, nowhere};
use std::alloc::{AllocError, Global};

/// A name as an expression.
pub fn name<'s>(text: &'s [u8]) -> Expr<'s>
    ensures tree { bare_of result ≡ expression tt 0 (Name (named text.now)) }
    ensures parens { result.parens ≡ 0 }
{
    Expr {
        at: nowhere(),
        parens: 0,
        form: Form::Name(identifier(text)),
    }
}

/// A number.
pub fn number<'s>(text: &'s [u8]) -> Expr<'s>
    ensures tree { bare_of result ≡ expression tt 0 (Number text.now) }
    ensures parens { result.parens ≡ 0 }
{
    Expr {
        at: nowhere(),
        parens: 0,
        form: Form::Number(text),
    }
}

/// A character constant.
pub fn character<'s>(text: &'s [u8]) -> Expr<'s>
    ensures tree { bare_of result ≡ expression tt 0 (Character text.now) }
    ensures parens { result.parens ≡ 0 }
{
    Expr {
        at: nowhere(),
        parens: 0,
        form: Form::Char(text),
    }
}

/// Strings that stand side by side.
pub fn string<'s>(texts: Vec<&'s [u8]>) -> Expr<'s>
    ensures tree { bare_of result ≡ expression tt 0 (Strings (map (λ text. text.now) texts.entry.items)) }
    ensures parens { result.parens ≡ 0 }
{
    Expr {
        at: nowhere(),
        parens: 0,
        form: Form::Str(texts),
    }
}

/// An operator and its operand.
pub fn unary<'s>(alloc: Global, sign: Sign, operand: Expr<'s>) -> Result<Expr<'s>, AllocError>
    ensures tree { IfOk result (λ e. bare_of e ≡ expression tt 0 (Unary sign (bare_of operand.entry))) }
    ensures parens { IfOk result (λ e. e.parens ≡ 0) }
{
    let form = Form::Unary(sign, boxed(alloc, operand)?);
    Ok(Expr {
        at: nowhere(),
        parens: 0,
        form,
    })
}

/// `++` or `--` on one side of its operand.
pub fn step<'s>(
    alloc: Global,
    side: Side,
    sign: Sign,
    operand: Expr<'s>,
) -> Result<Expr<'s>, AllocError>
    ensures tree { IfOk result (λ e. bare_of e ≡ expression tt 0 (Step side sign (bare_of operand.entry))) }
    ensures parens { IfOk result (λ e. e.parens ≡ 0) }
{
    let form = Form::Step(side, sign, boxed(alloc, operand)?);
    Ok(Expr {
        at: nowhere(),
        parens: 0,
        form,
    })
}

/// An operator between its operands.
pub fn binary<'s>(
    alloc: Global,
    sign: Sign,
    left: Expr<'s>,
    right: Expr<'s>,
) -> Result<Expr<'s>, AllocError>
    ensures tree { IfOk result (λ e. bare_of e ≡ expression tt 0 (Binary sign (bare_of left.entry) (bare_of right.entry))) }
    ensures parens { IfOk result (λ e. e.parens ≡ 0) }
{
    let (left, right) = boxed_pair(alloc, left, right)?;
    let form = Form::Binary(sign, left, right);
    Ok(Expr {
        at: nowhere(),
        parens: 0,
        form,
    })
}

/// An assignment.
pub fn assign<'s>(
    alloc: Global,
    sign: Sign,
    left: Expr<'s>,
    right: Expr<'s>,
) -> Result<Expr<'s>, AllocError>
    ensures tree { IfOk result (λ e. bare_of e ≡ expression tt 0 (Assign sign (bare_of left.entry) (bare_of right.entry))) }
    ensures parens { IfOk result (λ e. e.parens ≡ 0) }
{
    let (left, right) = boxed_pair(alloc, left, right)?;
    let form = Form::Assign(sign, left, right);
    Ok(Expr {
        at: nowhere(),
        parens: 0,
        form,
    })
}

/// `test ? first : second`
pub fn conditional<'s>(
    alloc: Global,
    test: Expr<'s>,
    first: Expr<'s>,
    second: Expr<'s>,
) -> Result<Expr<'s>, AllocError>
    ensures tree { IfOk result (λ e. bare_of e ≡ expression tt 0 (Conditional (bare_of test.entry) (bare_of first.entry) (bare_of second.entry))) }
    ensures parens { IfOk result (λ e. e.parens ≡ 0) }
{
    let (test, first, second) = boxed_triple(alloc, test, first, second)?;
    let form = Form::Cond(test, first, second);
    Ok(Expr {
        at: nowhere(),
        parens: 0,
        form,
    })
}

/// `callee(arguments)`
pub fn call<'s>(
    alloc: Global,
    callee: Expr<'s>,
    arguments: Vec<Expr<'s>>,
) -> Result<Expr<'s>, AllocError>
    ensures tree { IfOk result (λ e. bare_of e ≡ expression tt 0 (Call (bare_of callee.entry) (expression_row (map bare_of arguments.entry.items)))) }
    ensures parens { IfOk result (λ e. e.parens ≡ 0) }
{
    let form = Form::Call(boxed(alloc, callee)?, arguments);
    Ok(Expr {
        at: nowhere(),
        parens: 0,
        form,
    })
}

/// `left[right]`
pub fn index<'s>(alloc: Global, left: Expr<'s>, right: Expr<'s>) -> Result<Expr<'s>, AllocError>
    ensures tree { IfOk result (λ e. bare_of e ≡ expression tt 0 (Index (bare_of left.entry) (bare_of right.entry))) }
    ensures parens { IfOk result (λ e. e.parens ≡ 0) }
{
    let (left, right) = boxed_pair(alloc, left, right)?;
    let form = Form::Index(left, right);
    Ok(Expr {
        at: nowhere(),
        parens: 0,
        form,
    })
}

/// `whole.name`
pub fn member<'s>(alloc: Global, whole: Expr<'s>, name: &'s [u8]) -> Result<Expr<'s>, AllocError>
    ensures tree { IfOk result (λ e. bare_of e ≡ expression tt 0 (Selected (bare_of whole.entry) (named name.now))) }
    ensures parens { IfOk result (λ e. e.parens ≡ 0) }
{
    let form = Form::Member(boxed(alloc, whole)?, identifier(name));
    Ok(Expr {
        at: nowhere(),
        parens: 0,
        form,
    })
}

/// `whole->name`
pub fn arrow<'s>(alloc: Global, whole: Expr<'s>, name: &'s [u8]) -> Result<Expr<'s>, AllocError>
    ensures tree { IfOk result (λ e. bare_of e ≡ expression tt 0 (Arrow (bare_of whole.entry) (named name.now))) }
    ensures parens { IfOk result (λ e. e.parens ≡ 0) }
{
    let form = Form::Arrow(boxed(alloc, whole)?, identifier(name));
    Ok(Expr {
        at: nowhere(),
        parens: 0,
        form,
    })
}

/// `(kind) operand`
pub fn cast<'s>(
    alloc: Global,
    kind: TypeName<'s>,
    operand: Expr<'s>,
) -> Result<Expr<'s>, AllocError>
    ensures tree { IfOk result (λ e. bare_of e ≡ expression tt 0 (Cast (bare_kind_of kind.entry) (bare_of operand.entry))) }
    ensures parens { IfOk result (λ e. e.parens ≡ 0) }
{
    let (kind, operand) = boxed_pair(alloc, kind, operand)?;
    let form = Form::Cast(kind, operand);
    Ok(Expr {
        at: nowhere(),
        parens: 0,
        form,
    })
}

/// `sizeof operand`
pub fn sizeof_expr<'s>(alloc: Global, operand: Expr<'s>) -> Result<Expr<'s>, AllocError>
    ensures tree { IfOk result (λ e. bare_of e ≡ expression tt 0 (SizeofExpression (bare_of operand.entry))) }
    ensures parens { IfOk result (λ e. e.parens ≡ 0) }
{
    let form = Form::SizeofExpr(boxed(alloc, operand)?);
    Ok(Expr {
        at: nowhere(),
        parens: 0,
        form,
    })
}

/// `sizeof (kind)`
pub fn sizeof_type<'s>(alloc: Global, kind: TypeName<'s>) -> Result<Expr<'s>, AllocError>
    ensures tree { IfOk result (λ e. bare_of e ≡ expression tt 0 (SizeofType (bare_kind_of kind.entry))) }
    ensures parens { IfOk result (λ e. e.parens ≡ 0) }
{
    let form = Form::SizeofType(boxed(alloc, kind)?);
    Ok(Expr {
        at: nowhere(),
        parens: 0,
        form,
    })
}

/// A first operand and others with commas between them.
pub fn comma<'s>(first: Expr<'s>, others: Vec<Expr<'s>>) -> Result<Expr<'s>, AllocError>
    ensures tree { IfOk result (λ e. bare_of e ≡ expression tt 0 (Comma (MoreExpressions (bare_of first.entry) (expression_row (map bare_of others.entry.items))))) }
    ensures parens { IfOk result (λ e. e.parens ≡ 0) }
{
    let mut all = others;
    all.insert(0, first)?;
    Ok(operands(all))
}

/// Operands with commas between them.
fn operands<'s>(all: Vec<Expr<'s>>) -> Expr<'s>
    ensures tree { bare_of result ≡ expression tt 0 (Comma (expression_row (map bare_of all.entry.items))) }
    ensures parens { result.parens ≡ 0 }
{
    Expr {
        at: nowhere(),
        parens: 0,
        form: Form::Comma(all),
    }
}

/// An expression in one more pair of parentheses.
pub fn grouped<'s>(inner: Expr<'s>) -> Expr<'s>
    requires { inner.parens + 1 < 2 ^ 64 }
    ensures tree { bare_of result ≡ in_parentheses (bare_of inner.entry) }
    ensures parens { result.parens ≡ inner.entry.parens + 1 }
{
    Expr {
        at: nowhere(),
        parens: inner.parens + 1,
        form: inner.form,
    }
}
