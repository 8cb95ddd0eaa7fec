//! Typed statements and initialisers (C99 6.7.8, 6.8).

use crate::c_type::CType;
use crate::typed::{Place, Value};
use p10_base::{At, ListBuf, Span};
use p10_int::BinOp;

/// What is written for scalars of an object.
#[derive(Drop)]
pub enum Written {
    /// A value for one scalar.
    Scalar(Value),
    /// The bytes of a string literal, for as many scalars.
    Text(ListBuf<u8>),
}

/// An item of an initialiser's list.
#[derive(Drop)]
pub struct Item {
    /// The place of its first scalar among those of the object.
    pub scalar: u64,
    pub written: Written,
}

/// An initialiser (C99 6.7.8).
#[derive(Drop)]
pub enum Initializer {
    /// None is written.
    Absent,
    /// The value of a scalar.
    Single(Value),
    /// A structure that is copied.
    Copied(Place),
    /// A list or a string for an aggregate, with its place: its items in order. The scalars that aren't written are
    /// zero or null.
    Listed(At, ListBuf<Item>),
}

/// The keyword of a loop.
#[derive(Clone, Copy, Debug, PartialEq, Eq)]
pub enum LoopKeyword {
    While,
    Do,
    For,
}

/// What a loop begins with.
#[derive(Clone, Copy, Debug)]
pub struct LoopHead {
    /// The number of the loop in its function, in text order of the keywords.
    pub number: u32,
    pub keyword: LoopKeyword,
    /// The keyword's span.
    pub span: Span,
}

/// How an update is written.
#[derive(Clone, Copy, Debug, PartialEq, Eq)]
pub enum UpdateKind {
    /// `P op= e`.
    Compound,
    /// `P++` or `P--`, with the constant 1 as value.
    Step,
}

/// A pragma of p10.
#[derive(Clone, Copy, Debug, PartialEq, Eq)]
pub enum MarkKind {
    InitDone,
    TaskLoop,
}

/// A `case` label of a `switch`: its value, and the place of the item of the body that it stands before.
#[derive(Clone, Copy, Debug)]
pub struct Label {
    pub value: i128,
    pub place: u32,
}

/// The labels of a `switch`, and the place of the item that `default` stands before.
#[derive(Drop)]
pub struct Labels {
    pub cases: ListBuf<Label>,
    pub otherwise: Option<u32>,
}

/// A statement: where its tree stands, and its form.
#[derive(Drop)]
#[cycle(statements)]
pub struct Stmt {
    pub at: At,
    pub form: StmtForm,
}

/// What a statement is. Parts stand in text order.
#[derive(Drop)]
#[cycle(statements)]
pub enum StmtForm {
    /// `P = e;` of a scalar.
    Set(Place, Value),
    /// `P op= e;`, `P++;` or `P--;`, with the type to which the value of P is converted for the operator.
    Update(UpdateKind, BinOp, CType, Place, Value),
    /// The copy of a structure: its target and its source.
    Copy(Place, Place),
    /// Another expression.
    Value(Value),
    /// `assert(e);`, with where the call stands.
    Assert(At, Value),
    /// The declaration of a variable of the function, by its number.
    Declare(u32, Initializer),
    /// The declaration of an object of static lifetime in a block, by its number.
    Static(u32),
    Block(ListBuf<Stmt>),
    If(Value, Box<Stmt>, Option<Box<Stmt>>),
    /// A loop: its first clause, its test, its third clause and its body.
    Loop(LoopHead, ListBuf<Stmt>, Option<Value>, ListBuf<Stmt>, Box<Stmt>),
    /// `switch`, with the span of its keyword.
    Switch(Span, Value, Labels, Box<Stmt>),
    Break,
    Continue,
    /// `return`, with the span of its keyword.
    Return(Span, Option<Value>),
    Empty,
    Mark(MarkKind),
}
