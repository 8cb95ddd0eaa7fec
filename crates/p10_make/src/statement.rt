//! Makes trees of declarations, statements and functions of their parts (C99 6.7.8, 6.8, 6.9).

ghost use Rattle.std.specs.Prelude.{◌≡◌, IfOk, map};
ghost use Rattle.p10_syn.specs.Trees.{Value, Braced, Empty, Evaluate, Block, If, IfElse, Switch, While, Do, For, Case, Default, Label, Goto, Break, Continue, Return, Declare, Pragma, Outer, Defines, initializer_row, specifier_row, statement_row};
ghost use Rattle.p10_syn.specs.Bare.{no_landmarks};
ghost use Rattle.p10_syn.specs.Built.{bare_of, bare_specifier_of, bare_declarator_of, bare_optional_of, named};
ghost use Rattle.p10_syn.specs.BuiltStatements.{bare_initializer_of, bare_init_declarator_of, bare_declaration_of, bare_statement_of, bare_external_of, bare_initial_of};

use crate::boxes::{stopped, stopped_after_two};
use p10_base::{boxed, boxed_pair};
use p10_syn::{
    Decl, Declarator, Expr, Function, Identifier, Init, InitDeclarator, Landmarks, Spec, Stmt,
    Unit, nowhere,
};
use std::alloc::{AllocError, Global};

/// A value as an initialiser.
#[tactic(auto, unfolding(p10_syn::specs::Built::bare_of, p10_syn::specs::BuiltStatements::bare_initializer_of))]
pub fn value<'s>(value: Expr<'s>) -> Init<'s>
    ensures { bare_initializer_of result ≡ Value (bare_of value.entry) }
{
    Init::Value(value)
}

/// Initialisers in braces.
pub fn braced<'s>(all: Vec<Init<'s>>, ends_with_comma: bool) -> Init<'s>
    ensures { bare_initializer_of result ≡ Braced tt (initializer_row (map bare_initializer_of all.entry.items)) ends_with_comma }
{
    Init::Braced(nowhere(), all, ends_with_comma)
}

/// A declarator with its initialiser.
pub fn init_declarator<'s>(declarator: Declarator<'s>, init: Option<Init<'s>>) -> InitDeclarator<'s>
    ensures { bare_init_declarator_of result ≡ record { place = tt; declarator = bare_declarator_of declarator.entry; initial = bare_initial_of init.entry } }
{
    InitDeclarator {
        at: nowhere(),
        declarator,
        init,
    }
}

/// A declaration.
pub fn declaration<'s>(specs: Vec<Spec<'s>>, declarators: Vec<InitDeclarator<'s>>) -> Decl<'s>
    ensures { bare_declaration_of result ≡ record { place = tt; specifiers = specifier_row (map bare_specifier_of specs.entry.items); declarators = map bare_init_declarator_of declarators.entry.items } }
{
    Decl {
        at: nowhere(),
        specs,
        declarators,
    }
}

/// `;`
pub fn empty<'s>() -> Stmt<'s>
    ensures { bare_statement_of result ≡ Empty tt }
{
    Stmt::Empty(nowhere())
}

/// An expression and `;`.
pub fn evaluate<'s>(value: Expr<'s>) -> Stmt<'s>
    ensures { bare_statement_of result ≡ Evaluate tt (bare_of value.entry) }
{
    Stmt::Expr(nowhere(), value)
}

/// Statements in braces.
pub fn block<'s>(all: Vec<Stmt<'s>>) -> Stmt<'s>
    ensures { bare_statement_of result ≡ Block tt (statement_row (map bare_statement_of all.entry.items)) }
{
    Stmt::Block(nowhere(), all)
}

/// An `if` without `else`.
pub fn if_then<'s>(alloc: Global, test: Expr<'s>, then: Stmt<'s>) -> Result<Stmt<'s>, AllocError>
    ensures { IfOk result (λ s. bare_statement_of s ≡ If tt (bare_of test.entry) (bare_statement_of then.entry)) }
{
    match boxed(alloc, then) {
        Ok(then) => Ok(Stmt::If(nowhere(), test, then)),
        Err(trouble) => stopped(test, trouble),
    }
}

/// An `if` with `else`.
pub fn if_else<'s>(
    alloc: Global,
    test: Expr<'s>,
    then: Stmt<'s>,
    other: Stmt<'s>,
) -> Result<Stmt<'s>, AllocError>
    ensures { IfOk result (λ s. bare_statement_of s ≡ IfElse tt (bare_of test.entry) (bare_statement_of then.entry) (bare_statement_of other.entry)) }
{
    match boxed_pair(alloc, then, other) {
        Ok((then, other)) => Ok(Stmt::IfElse(nowhere(), test, then, other)),
        Err(trouble) => stopped(test, trouble),
    }
}

/// A `switch`.
pub fn switch<'s>(alloc: Global, value: Expr<'s>, body: Stmt<'s>) -> Result<Stmt<'s>, AllocError>
    ensures { IfOk result (λ s. bare_statement_of s ≡ Switch tt tt (bare_of value.entry) (bare_statement_of body.entry)) }
{
    match boxed(alloc, body) {
        Ok(body) => Ok(Stmt::Switch(nowhere(), nowhere(), value, body)),
        Err(trouble) => stopped(value, trouble),
    }
}

/// A `while`.
pub fn while_loop<'s>(alloc: Global, test: Expr<'s>, body: Stmt<'s>) -> Result<Stmt<'s>, AllocError>
    ensures { IfOk result (λ s. bare_statement_of s ≡ While tt tt (bare_of test.entry) (bare_statement_of body.entry)) }
{
    match boxed(alloc, body) {
        Ok(body) => Ok(Stmt::While(nowhere(), nowhere(), test, body)),
        Err(trouble) => stopped(test, trouble),
    }
}

/// A `do`.
pub fn do_loop<'s>(alloc: Global, body: Stmt<'s>, test: Expr<'s>) -> Result<Stmt<'s>, AllocError>
    ensures { IfOk result (λ s. bare_statement_of s ≡ Do tt tt (bare_statement_of body.entry) (bare_of test.entry)) }
{
    match boxed(alloc, body) {
        Ok(body) => Ok(Stmt::Do(nowhere(), nowhere(), body, test)),
        Err(trouble) => stopped(test, trouble),
    }
}

/// A `for`.
pub fn for_loop<'s>(
    alloc: Global,
    start: Stmt<'s>,
    test: Option<Expr<'s>>,
    step: Option<Expr<'s>>,
    body: Stmt<'s>,
) -> Result<Stmt<'s>, AllocError>
    ensures { IfOk result (λ s. bare_statement_of s ≡ For tt tt (bare_statement_of start.entry) (bare_optional_of test.entry) (bare_optional_of step.entry) (bare_statement_of body.entry)) }
{
    match boxed_pair(alloc, start, body) {
        Ok((start, body)) => Ok(Stmt::For(nowhere(), nowhere(), start, test, step, body)),
        Err(trouble) => stopped_after_two(test, step, trouble),
    }
}

/// A `case`.
pub fn case<'s>(alloc: Global, value: Expr<'s>, body: Stmt<'s>) -> Result<Stmt<'s>, AllocError>
    ensures { IfOk result (λ s. bare_statement_of s ≡ Case tt (bare_of value.entry) (bare_statement_of body.entry)) }
{
    match boxed(alloc, body) {
        Ok(body) => Ok(Stmt::Case(nowhere(), value, body)),
        Err(trouble) => stopped(value, trouble),
    }
}

/// A `default`.
pub fn default<'s>(alloc: Global, body: Stmt<'s>) -> Result<Stmt<'s>, AllocError>
    ensures { IfOk result (λ s. bare_statement_of s ≡ Default tt (bare_statement_of body.entry)) }
{
    Ok(Stmt::Default(nowhere(), boxed(alloc, body)?))
}

/// A label.
pub fn label<'s>(alloc: Global, name: &'s [u8], body: Stmt<'s>) -> Result<Stmt<'s>, AllocError>
    ensures { IfOk result (λ s. bare_statement_of s ≡ Label tt (named name.now) (bare_statement_of body.entry)) }
{
    let name = Identifier {
        at: nowhere(),
        text: name,
    };
    Ok(Stmt::Label(nowhere(), name, boxed(alloc, body)?))
}

/// A `goto`.
pub fn goto<'s>(name: &'s [u8]) -> Stmt<'s>
    ensures { bare_statement_of result ≡ Goto tt (named name.now) }
{
    let name = Identifier {
        at: nowhere(),
        text: name,
    };
    Stmt::Goto(nowhere(), name)
}

/// A `break`.
pub fn leave<'s>() -> Stmt<'s>
    ensures { bare_statement_of result ≡ Break tt }
{
    Stmt::Break(nowhere())
}

/// A `continue`.
pub fn go_on<'s>() -> Stmt<'s>
    ensures { bare_statement_of result ≡ Continue tt }
{
    Stmt::Continue(nowhere())
}

/// A `return`.
pub fn give_back<'s>(value: Option<Expr<'s>>) -> Stmt<'s>
    ensures { bare_statement_of result ≡ Return tt tt (bare_optional_of value.entry) }
{
    Stmt::Return(nowhere(), nowhere(), value)
}

/// A declaration as a statement.
#[tactic(auto, unfolding(p10_syn::specs::BuiltStatements::bare_statement_of, p10_syn::specs::BuiltStatements::bare_declaration_of))]
pub fn declares<'s>(declaration: Decl<'s>) -> Stmt<'s>
    ensures { bare_statement_of result ≡ Declare (bare_declaration_of declaration.entry) }
{
    Stmt::Decl(declaration)
}

/// A p10 pragma.
pub fn mark<'s>(text: &'s [u8]) -> Stmt<'s>
    ensures { bare_statement_of result ≡ Pragma tt text.now }
{
    Stmt::Mark(nowhere(), text)
}

/// A declaration outside of functions.
#[tactic(auto, unfolding(p10_syn::specs::BuiltStatements::bare_external_of, p10_syn::specs::BuiltStatements::bare_declaration_of))]
pub fn outer<'s>(declaration: Decl<'s>) -> Unit<'s>
    ensures { bare_external_of result ≡ Outer tt (bare_declaration_of declaration.entry) }
{
    Unit::Decl(nowhere(), declaration)
}

/// A function.
pub fn definition<'s>(
    specs: Vec<Spec<'s>>,
    declarator: Declarator<'s>,
    body: Vec<Stmt<'s>>,
) -> Unit<'s>
    ensures { bare_external_of result ≡ Defines (record { place = tt; landmarks = no_landmarks; specifiers = specifier_row (map bare_specifier_of specs.entry.items); declarator = bare_declarator_of declarator.entry; body_place = tt; body = statement_row (map bare_statement_of body.entry.items) }) }
{
    let landmarks = Landmarks {
        whole: nowhere(),
        first_word: nowhere(),
        brace: nowhere(),
        last_word: nowhere(),
    };
    Unit::Function(Function {
        at: nowhere(),
        landmarks,
        specs,
        declarator,
        body_at: nowhere(),
        body,
    })
}
