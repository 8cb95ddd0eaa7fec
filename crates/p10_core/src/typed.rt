//! Typed values and places (C99 6.5).

use crate::c_type::CType;
use p10_base::{At, ListBuf, Span};
use p10_int::{BinOp, UnOp};

/// `&&` and `||` (C99 6.5.13, 6.5.14).
#[derive(Clone, Copy, Debug, PartialEq, Eq)]
pub enum LogicOp {
    And,
    Or,
}

/// The functions that need no declaration.
#[derive(Clone, Copy, Debug, PartialEq, Eq)]
pub enum Library {
    Assert,
    CAssert,
    Getchar,
    Putchar,
    Malloc,
    Calloc,
    Free,
}

/// A value: where its tree stands, its type, and its form.
#[derive(Drop)]
#[cycle(typed)]
pub struct Value {
    pub at: At,
    pub ty: CType,
    pub form: ValueForm,
}

/// What a value is. Parts stand in text order.
#[derive(Drop)]
#[cycle(typed)]
pub enum ValueForm {
    Const(i128),
    /// The value read from a place.
    Read(Box<Place>),
    /// The next value of a sensor, by the number of its object.
    Sense(u32),
    Addr(Box<Place>),
    /// The address of an array's first element (C99 6.3.2.1p3).
    Decay(Box<Place>),
    /// A conversion that isn't written.
    Convert(Box<Value>),
    /// A written cast.
    Cast(Box<Value>),
    Unary(UnOp, Box<Value>),
    Binary(BinOp, Box<Value>, Box<Value>),
    Logic(LogicOp, Box<Value>, Box<Value>),
    /// `?:`.
    Cond(Box<Value>, Box<Value>, Box<Value>),
    /// A call of a function by its number, with the span of its name.
    Call(Span, u32, ListBuf<Value>),
    /// A call of a library function, with the span of its name. An allocation has the type of the pointer that it
    /// gives, and the number of elements as its argument, or no argument for one element.
    Builtin(Span, Library, ListBuf<Value>),
}

/// A place (an lvalue, C99 6.3.2.1): where its tree stands, its type, and its form.
#[derive(Drop)]
#[cycle(typed)]
pub struct Place {
    pub at: At,
    pub ty: CType,
    pub form: PlaceForm,
}

/// What a place is.
#[derive(Drop)]
#[cycle(typed)]
pub enum PlaceForm {
    /// A variable of the function, by its number.
    Var(u32),
    /// An object of static lifetime, by its number.
    Global(u32),
    /// A string literal, by the number of its first word, with its bytes and the last 0.
    Literal(u32, ListBuf<u8>),
    /// An element, by a pointer and an integer.
    Index(Box<Value>, Box<Value>),
    /// A member of a structure, by its place among the members.
    Member(Box<Place>, u32),
    /// What a pointer points to.
    Deref(Box<Value>),
}
