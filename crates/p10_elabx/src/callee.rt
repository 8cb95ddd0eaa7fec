//! What is called, and what it asks of its arguments (C99 6.5.2.2).

use p10_core::{CType, Library};

/// What a name stands for where it is called.
#[derive(Clone, Copy)]
pub enum Callee<'c> {
    /// A function of the program.
    Program {
        number: u32,
        params: &'c [CType],
        result: &'c CType,
    },
    Library(Library),
    /// Nothing that is declared.
    NotDeclared,
    /// Something other than a function.
    NoFunction,
    /// Something whose declaration was refused.
    Refused,
}

/// What is asked of an argument.
#[derive(Clone, Copy)]
pub enum Wanted<'c> {
    Anything,
    /// That it fits a type.
    Plain(&'c CType),
    /// That it fits `int`.
    Integer,
    Scalar,
    Pointer,
}

/// What is asked of all arguments of a call.
#[derive(Clone, Copy)]
pub enum Wants<'c> {
    Nothing,
    Types(&'c [CType]),
    Library(Library),
}
