//! Typed programs: functions, variables and objects.

use crate::c_type::CType;
use crate::statements::{Initializer, Stmt};
use crate::table::Types;
use p10_base::{ListBuf, Span};

/// A variable of a function: a parameter or an automatic variable.
#[derive(Drop)]
pub struct Variable<'s> {
    pub name: &'s [u8],
    pub ty: CType,
    /// The size in bytes.
    pub bytes: u64,
    /// Whether it is a frame variable: a scalar whose address is never taken.
    pub frame: bool,
    /// The name's span.
    pub span: Span,
}

/// A function.
#[derive(Drop)]
pub struct Func<'s> {
    pub name: &'s [u8],
    /// The name's span.
    pub span: Span,
    /// Whether it is `static`.
    pub is_static: bool,
    /// How many of the variables, the first ones, are parameters.
    pub params: u32,
    pub result: CType,
    /// The variables, in text order.
    pub vars: ListBuf<Variable<'s>>,
    pub body: ListBuf<Stmt>,
}

/// Functions in a row, from the number `from` up to but not including the number `to`.
#[derive(Clone, Copy, Debug)]
pub struct Extent {
    pub from: u32,
    pub to: u32,
}

/// An object of static lifetime.
#[derive(Drop)]
pub struct Global<'s> {
    pub name: &'s [u8],
    pub ty: CType,
    /// The size in bytes.
    pub bytes: u64,
    /// The name's span.
    pub span: Span,
    pub init: Initializer,
    /// The function in whose blocks it is declared, if it doesn't stand at file scope.
    pub owner: Option<u32>,
    /// Whether it is a sensor: `volatile`, so each read takes its next value.
    pub sensor: bool,
    /// The functions at which an object of file scope is in scope: for each root that declares it, those after its
    /// first declaration there.
    pub visible: ListBuf<Extent>,
}

/// A string literal that is an object (C99 6.4.5p5).
#[derive(Drop)]
pub struct Literal {
    /// The number of its first word among the expanded words of the roots.
    pub number: u32,
    /// Its bytes, with the last 0.
    pub bytes: ListBuf<u8>,
}

/// A name of an object of file scope that a root declares and none defines, and the functions of that root at which it is in scope.
#[derive(Clone, Copy, Debug)]
pub struct Seen<'s> {
    pub name: &'s [u8],
    pub visible: Extent,
}

/// A typed program.
#[derive(Drop)]
pub struct Program<'s> {
    pub types: Types<'s>,
    pub globals: ListBuf<Global<'s>>,
    pub functions: ListBuf<Func<'s>>,
    /// The string literals in its trees, by rising numbers.
    pub literals: ListBuf<Literal>,
    /// The number of `main`.
    pub main: u32,
    /// The place of the pragma `init_done` among the items of `main`'s body.
    pub mark: Option<u32>,
    /// The place of the task loop among the items of `main`'s body.
    pub task: Option<u32>,
    /// The objects of file scope that are declared and not defined.
    pub outside: ListBuf<Seen<'s>>,
}
