//! Trees of declarations, statements and functions (C99 6.7 to 6.9).

use crate::tree::{Declarator, Expr, Identifier, Spec};
use p10_base::At;

/// An initialiser (C99 6.7.8).
#[derive(Drop)]
pub enum Init<'s> {
    Value(Expr<'s>),
    /// A list in braces, and whether it ends with a comma.
    Braced(At, Vec<Init<'s>>, bool),
}

/// A declarator of a declaration, and its initialiser if it has one.
#[derive(Drop)]
pub struct InitDeclarator<'s> {
    pub at: At,
    pub declarator: Declarator<'s>,
    pub init: Option<Init<'s>>,
}

/// A declaration (C99 6.7).
#[derive(Drop)]
pub struct Decl<'s> {
    pub at: At,
    pub specs: Vec<Spec<'s>>,
    pub declarators: Vec<InitDeclarator<'s>>,
}

/// A statement (C99 6.8), a declaration or a p10 pragma. Loops, `switch` and `return` keep where
/// their keyword stands.
#[derive(Drop)]
pub enum Stmt<'s> {
    Empty(At),
    /// An expression and its `;`.
    Expr(At, Expr<'s>),
    Block(At, Vec<Stmt<'s>>),
    If(At, Expr<'s>, Box<Stmt<'s>>),
    IfElse(At, Expr<'s>, Box<Stmt<'s>>, Box<Stmt<'s>>),
    Switch(At, At, Expr<'s>, Box<Stmt<'s>>),
    While(At, At, Expr<'s>, Box<Stmt<'s>>),
    /// Its body, and then what it tests.
    Do(At, At, Box<Stmt<'s>>, Expr<'s>),
    /// Its first part, which is `Decl`, `Expr` or `Empty`; what it tests and what it steps, if they
    /// are written; and its body.
    For(At, At, Box<Stmt<'s>>, Option<Expr<'s>>, Option<Expr<'s>>, Box<Stmt<'s>>),
    Case(At, Expr<'s>, Box<Stmt<'s>>),
    Default(At, Box<Stmt<'s>>),
    Label(At, Identifier<'s>, Box<Stmt<'s>>),
    Goto(At, Identifier<'s>),
    Break(At),
    Continue(At),
    Return(At, At, Option<Expr<'s>>),
    /// A declaration, in a block or at the head of a `for`.
    Decl(Decl<'s>),
    /// A p10 pragma, in a block: the text of the directive's last word.
    Mark(At, &'s [u8]),
}

/// Where the words of a function stand that rules on functions ask for. Their numbers count the
/// words of the function's root alone.
#[derive(Clone, Copy, Debug)]
pub struct Landmarks {
    /// All of its words.
    pub whole: At,
    pub first_word: At,
    /// The `{` of its body.
    pub brace: At,
    pub last_word: At,
}

/// A function with its body (C99 6.9.1).
#[derive(Drop)]
pub struct Function<'s> {
    pub at: At,
    pub landmarks: Landmarks,
    pub specs: Vec<Spec<'s>>,
    pub declarator: Declarator<'s>,
    /// Where its body stands, braces included.
    pub body_at: At,
    pub body: Vec<Stmt<'s>>,
}

/// A declaration outside of functions, or a function (C99 6.9).
#[derive(Drop)]
pub enum Unit<'s> {
    /// A declaration, and where it stands in its root, whose words are counted by themselves.
    Decl(At, Decl<'s>),
    Function(Function<'s>),
}
