//! The places of statements.

ghost use Rattle.std.specs.Prelude.{◌≡◌, ◌+◌, ◌<◌, ◌^◌, map};
ghost use Rattle.p10_syn.specs.Trees.{Block, If, Switch, While, Do, Case, Default, Label, Return};
ghost use Rattle.p10_syn.specs.Bare.{bare, bare_name, bare_optional, bare_statement, bare_statements};
ghost use Rattle.p10_syn.specs.Built.{identifier_of, expression_of};
ghost use Rattle.p10_syn.specs.BuiltStatements.{optional_expression, statement_of};
ghost use Rattle.p10_syn.specs.Counts.{count, count_optional, count_statement, count_statements};
ghost use Rattle.p10_syn.specs.Places.{locate, locate_optional, locate_statement, locate_statements};
ghost use Rattle.p10_place.specs.Roots.{source_of};
ghost use Rattle.p10_place.specs.private.Lists.{statements_in};

use crate::declaration::set_declaration;
use crate::expression::{set_expression, set_name};
use crate::put::put;
use crate::root::{NOWHERE, Root};
use p10_syn::{Expr, Identifier, Stmt};
use std::mem::replace;

/// Sets the places in a statement.
#[cycle(stating)]
fn set_statement(root: &Root<'_, '_>, first: usize, statement: &mut Stmt<'_>) -> usize
    requires { first + count_statement (bare_statement (statement_of statement.old)) < 2 ^ 64 }
    ensures placed { statement_of statement.new ≡ locate_statement (source_of root.now) first (bare_statement (statement_of statement.old)) }
    ensures past { result ≡ first + count_statement (bare_statement (statement_of statement.old)) }
{
    let taken = replace(statement, Stmt::Empty(NOWHERE));
    let (placed, past) = set_parts(root, first, taken);
    put(statement, placed);
    past
}

/// A statement with its places set, and the number of the word past it.
#[cycle(stating)]
fn set_parts<'s>(root: &Root<'_, '_>, first: usize, statement: Stmt<'s>) -> (Stmt<'s>, usize)
    requires { first + count_statement (bare_statement (statement_of statement)) < 2 ^ 64 }
    ensures placed { statement_of result.0 ≡ locate_statement (source_of root.now) first (bare_statement (statement_of statement.entry)) }
    ensures past { result.1 ≡ first + count_statement (bare_statement (statement_of statement.entry)) }
{
    match statement {
        Stmt::Empty(_) => (Stmt::Empty(root.place_between(first, first + 1)), first + 1),
        Stmt::Expr(_, mut value) => {
            let past = set_expression(root, first, &mut value) + 1;
            (Stmt::Expr(root.place_between(first, past), value), past)
        }
        Stmt::Block(_, all) => set_block(root, first, all),
        Stmt::If(_, test, then) => set_if(root, first, then, test),
        Stmt::IfElse(_, mut test, mut then, mut other) => {
            let past = set_headed(root, first, &mut then, &mut test);
            let past = set_statement(root, past + 1, &mut other);
            let at = root.place_between(first, past);
            (Stmt::IfElse(at, test, then, other), past)
        }
        Stmt::Switch(_, _, value, body) => set_switch(root, first, body, value),
        Stmt::While(_, _, test, body) => set_while(root, first, body, test),
        Stmt::Do(_, _, body, test) => set_do(root, first, body, test),
        Stmt::For(_, _, mut start, mut test, mut step, mut body) => {
            let keyword = root.place_between(first, first + 1);
            let past = set_statement(root, first + 2, &mut start);
            let past = set_value(root, past, &mut test);
            let past = set_value(root, past + 1, &mut step);
            let past = set_statement(root, past + 1, &mut body);
            let at = root.place_between(first, past);
            (Stmt::For(at, keyword, start, test, step, body), past)
        }
        Stmt::Case(_, value, body) => set_case(root, first, body, value),
        Stmt::Default(_, body) => set_default(root, first, body),
        Stmt::Label(_, name, body) => set_label(root, first, name, body),
        Stmt::Goto(_, mut name) => {
            let past = set_name(root, first + 1, &mut name) + 1;
            (Stmt::Goto(root.place_between(first, past), name), past)
        }
        Stmt::Break(_) => (Stmt::Break(root.place_between(first, first + 2)), first + 2),
        Stmt::Continue(_) => (
            Stmt::Continue(root.place_between(first, first + 2)),
            first + 2,
        ),
        Stmt::Return(_, _, value) => set_return(root, first, value),
        Stmt::Decl(mut declaration) => {
            let past = set_declaration(root, first, &mut declaration);
            (Stmt::Decl(declaration), past)
        }
        Stmt::Mark(_, text) => (
            Stmt::Mark(root.place_between(first, first + 1), text),
            first + 1,
        ),
    }
}

/// Sets the places in a block.
#[cycle(stating)]
fn set_block<'s>(root: &Root<'_, '_>, first: usize, mut all: Vec<Stmt<'s>>) -> (Stmt<'s>, usize)
    requires { first + count_statement (Block tt (bare_statements (statements_in all))) < 2 ^ 64 }
    ensures placed { statement_of result.0 ≡ locate_statement (source_of root.now) first (Block tt (bare_statements (statements_in all.entry))) }
    ensures past { result.1 ≡ first + count_statement (Block tt (bare_statements (statements_in all.entry))) }
{
    let past = set_statements(root, first + 1, &mut all) + 1;
    (Stmt::Block(root.place_between(first, past), all), past)
}

/// Sets the places in an `if` without `else`.
#[cycle(stating)]
fn set_if<'s>(
    root: &Root<'_, '_>,
    first: usize,
    mut then: Box<Stmt<'s>>,
    mut test: Expr<'s>,
) -> (Stmt<'s>, usize)
    requires { first + count_statement (If tt (bare (expression_of test)) (bare_statement (statement_of then.value))) < 2 ^ 64 }
    ensures placed { statement_of result.0 ≡ locate_statement (source_of root.now) first (If tt (bare (expression_of test.entry)) (bare_statement (statement_of then.entry.value))) }
    ensures past { result.1 ≡ first + count_statement (If tt (bare (expression_of test.entry)) (bare_statement (statement_of then.entry.value))) }
{
    let past = set_headed(root, first, &mut then, &mut test);
    (Stmt::If(root.place_between(first, past), test, then), past)
}

/// Sets the places in a `switch`.
#[cycle(stating)]
fn set_switch<'s>(
    root: &Root<'_, '_>,
    first: usize,
    mut body: Box<Stmt<'s>>,
    mut value: Expr<'s>,
) -> (Stmt<'s>, usize)
    requires { first + count_statement (Switch tt tt (bare (expression_of value)) (bare_statement (statement_of body.value))) < 2 ^ 64 }
    ensures placed { statement_of result.0 ≡ locate_statement (source_of root.now) first (Switch tt tt (bare (expression_of value.entry)) (bare_statement (statement_of body.entry.value))) }
    ensures past { result.1 ≡ first + count_statement (Switch tt tt (bare (expression_of value.entry)) (bare_statement (statement_of body.entry.value))) }
{
    let keyword = root.place_between(first, first + 1);
    let past = set_headed(root, first, &mut body, &mut value);
    let at = root.place_between(first, past);
    (Stmt::Switch(at, keyword, value, body), past)
}

/// Sets the places in a `while`.
#[cycle(stating)]
fn set_while<'s>(
    root: &Root<'_, '_>,
    first: usize,
    mut body: Box<Stmt<'s>>,
    mut test: Expr<'s>,
) -> (Stmt<'s>, usize)
    requires { first + count_statement (While tt tt (bare (expression_of test)) (bare_statement (statement_of body.value))) < 2 ^ 64 }
    ensures placed { statement_of result.0 ≡ locate_statement (source_of root.now) first (While tt tt (bare (expression_of test.entry)) (bare_statement (statement_of body.entry.value))) }
    ensures past { result.1 ≡ first + count_statement (While tt tt (bare (expression_of test.entry)) (bare_statement (statement_of body.entry.value))) }
{
    let keyword = root.place_between(first, first + 1);
    let past = set_headed(root, first, &mut body, &mut test);
    let at = root.place_between(first, past);
    (Stmt::While(at, keyword, test, body), past)
}

/// Sets the places in a `do`.
#[cycle(stating)]
fn set_do<'s>(
    root: &Root<'_, '_>,
    first: usize,
    mut body: Box<Stmt<'s>>,
    mut test: Expr<'s>,
) -> (Stmt<'s>, usize)
    requires { first + count_statement (Do tt tt (bare_statement (statement_of body.value)) (bare (expression_of test))) < 2 ^ 64 }
    ensures placed { statement_of result.0 ≡ locate_statement (source_of root.now) first (Do tt tt (bare_statement (statement_of body.entry.value)) (bare (expression_of test.entry))) }
    ensures past { result.1 ≡ first + count_statement (Do tt tt (bare_statement (statement_of body.entry.value)) (bare (expression_of test.entry))) }
{
    let keyword = root.place_between(first, first + 1);
    let past = set_statement(root, first + 1, &mut body);
    let past = set_expression(root, past + 2, &mut test) + 2;
    (
        Stmt::Do(root.place_between(first, past), keyword, body, test),
        past,
    )
}

/// Sets the places in a `case`.
#[cycle(stating)]
fn set_case<'s>(
    root: &Root<'_, '_>,
    first: usize,
    mut body: Box<Stmt<'s>>,
    mut value: Expr<'s>,
) -> (Stmt<'s>, usize)
    requires { first + count_statement (Case tt (bare (expression_of value)) (bare_statement (statement_of body.value))) < 2 ^ 64 }
    ensures placed { statement_of result.0 ≡ locate_statement (source_of root.now) first (Case tt (bare (expression_of value.entry)) (bare_statement (statement_of body.entry.value))) }
    ensures past { result.1 ≡ first + count_statement (Case tt (bare (expression_of value.entry)) (bare_statement (statement_of body.entry.value))) }
{
    let past = set_expression(root, first + 1, &mut value);
    let past = set_statement(root, past + 1, &mut body);
    (
        Stmt::Case(root.place_between(first, past), value, body),
        past,
    )
}

/// Sets the places in a `default`.
#[cycle(stating)]
fn set_default<'s>(root: &Root<'_, '_>, first: usize, mut body: Box<Stmt<'s>>) -> (Stmt<'s>, usize)
    requires { first + count_statement (Default tt (bare_statement (statement_of body.value))) < 2 ^ 64 }
    ensures placed { statement_of result.0 ≡ locate_statement (source_of root.now) first (Default tt (bare_statement (statement_of body.entry.value))) }
    ensures past { result.1 ≡ first + count_statement (Default tt (bare_statement (statement_of body.entry.value))) }
{
    let past = set_statement(root, first + 2, &mut body);
    (Stmt::Default(root.place_between(first, past), body), past)
}

/// Sets the places in a label and in what it stands before.
#[cycle(stating)]
fn set_label<'s>(
    root: &Root<'_, '_>,
    first: usize,
    mut name: Identifier<'s>,
    mut body: Box<Stmt<'s>>,
) -> (Stmt<'s>, usize)
    requires { first + count_statement (Label tt (bare_name (identifier_of name)) (bare_statement (statement_of body.value))) < 2 ^ 64 }
    ensures placed { statement_of result.0 ≡ locate_statement (source_of root.now) first (Label tt (bare_name (identifier_of name.entry)) (bare_statement (statement_of body.entry.value))) }
    ensures past { result.1 ≡ first + count_statement (Label tt (bare_name (identifier_of name.entry)) (bare_statement (statement_of body.entry.value))) }
{
    let past = set_name(root, first, &mut name);
    let past = set_statement(root, past + 1, &mut body);
    (
        Stmt::Label(root.place_between(first, past), name, body),
        past,
    )
}

/// Sets the places in a `return`.
fn set_return<'s>(
    root: &Root<'_, '_>,
    first: usize,
    mut value: Option<Expr<'s>>,
) -> (Stmt<'s>, usize)
    requires { first + count_statement (Return tt tt (bare_optional (optional_expression value))) < 2 ^ 64 }
    ensures placed { statement_of result.0 ≡ locate_statement (source_of root.now) first (Return tt tt (bare_optional (optional_expression value.entry))) }
    ensures past { result.1 ≡ first + count_statement (Return tt tt (bare_optional (optional_expression value.entry))) }
{
    let keyword = root.place_between(first, first + 1);
    let past = set_value(root, first + 1, &mut value) + 1;
    (
        Stmt::Return(root.place_between(first, past), keyword, value),
        past,
    )
}

/// Sets the places in a body and in the expression that stands before it, in parentheses after the keyword
/// at word `first`.
#[cycle(stating)]
fn set_headed(root: &Root<'_, '_>, first: usize, body: &mut Stmt<'_>, head: &mut Expr<'_>) -> usize
    requires { first + (2 + count (bare (expression_of head.old)) + 1 + count_statement (bare_statement (statement_of body.old))) < 2 ^ 64 }
    ensures head { expression_of head.new ≡ locate (source_of root.now) (first + 2) (bare (expression_of head.old)) }
    ensures body { statement_of body.new ≡ locate_statement (source_of root.now) (first + 2 + count (bare (expression_of head.old)) + 1) (bare_statement (statement_of body.old)) }
    ensures past { result ≡ first + (2 + count (bare (expression_of head.old)) + 1 + count_statement (bare_statement (statement_of body.old))) }
{
    let past = set_expression(root, first + 2, head);
    set_statement(root, past + 1, body)
}

/// Sets the places in an expression that may be left out.
fn set_value(root: &Root<'_, '_>, first: usize, value: &mut Option<Expr<'_>>) -> usize
    requires { first + count_optional (bare_optional (optional_expression value.old)) < 2 ^ 64 }
    ensures placed { optional_expression value.new ≡ locate_optional (source_of root.now) first (bare_optional (optional_expression value.old)) }
    ensures past { result ≡ first + count_optional (bare_optional (optional_expression value.old)) }
{
    match value {
        None => first,
        Some(e) => set_expression(root, first, e),
    }
}

/// Sets the places in statements one after the other.
#[cycle(stating)]
pub(crate) fn set_statements(root: &Root<'_, '_>, first: usize, all: &mut Vec<Stmt<'_>>) -> usize
    requires { first + count_statements (bare_statements (statements_in all.old)) < 2 ^ 64 }
    ensures placed { statements_in all.new ≡ locate_statements (source_of root.now) first (bare_statements (statements_in all.old)) }
    ensures past { result ≡ first + count_statements (bare_statements (statements_in all.old)) }
{
    let mut past = first;
    for i in 0..all.len() {
        past = set_statement(root, past, &mut all[i]);
    }
    past
}
