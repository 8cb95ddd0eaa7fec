//! Operations of the machine.

use p10_base::Span;
use p10_core::{CType, Item, Labels, Library};
use p10_int::{BinOp, IntType, Stop, UnOp};

/// Where an operation takes a scalar from: a slot of the open frame, or a small number or null in the operation.
#[derive(Clone, Copy, Debug, PartialEq, Eq)]
pub enum Operand {
    Slot(u32),
    Number(i32),
    Null,
}

/// What a conversion to a type does to a scalar.
#[derive(Clone, Copy, Debug, PartialEq, Eq)]
pub enum Class {
    Number(IntType),
    Address,
    Other,
}

/// What one scalar is computed by.
#[derive(Clone, Copy, Debug)]
pub enum Computation {
    Same(Operand),
    /// A number that doesn't stand in an operand.
    Wide(i128),
    Truth(Operand),
    Conversion(Class, Operand),
    Unary(UnOp, IntType, Operand),
    Binary(BinOp, IntType, Operand, Operand),
    /// The operator of an update, with the classes of the conversions before and after it.
    Update(BinOp, IntType, Class, Class, Operand, Operand),
    /// The address of the object that stands for a variable, with the number of its scalars.
    Object(u32, u64),
    /// The address of an object of static lifetime.
    StaticObject(u64, u64),
    Element(Operand, Operand),
    Inside(Operand, u64, u64, u64),
    Live(Operand),
    Content(Operand),
}

/// What an operation does once its steps are paid.
#[derive(Drop)]
pub enum Action<'p> {
    Compute(u32, Computation),
    Check(u32),
    Present(u32),
    Used(u32),
    Halt(Stop),
    Store(Operand, Operand),
    Sense(u32, Class),
    Jump(usize),
    Branch(Operand, usize, usize),
    /// The labels of a `switch`, the places of the items of its body, and the place past it.
    Choose(Operand, &'p Labels, Vec<usize>, usize),
    Call(u32, u32, u32, u32, u32),
    Library(u32, Library, &'p CType, u32, u32),
    Return(u32, Option<Operand>),
    Verify(Operand),
    Unset(u32),
    Opens(u32, &'p CType),
    Copy(Operand, Operand, Span, u64),
    Fill(Operand, &'p CType, &'p [Item], u32),
    Begin,
    Close,
    Leave(u32, usize),
    Mark,
    Rest(u32),
}

/// An operation: the steps that are paid before it acts, the span of its tree, and what it does.
#[derive(Drop)]
pub struct Op<'p> {
    pub cost: u64,
    pub span: Span,
    pub action: Action<'p>,
}

/// Where the code of a function begins, how many slots its frame has after its variables, and whether its outermost block opens
/// objects.
#[derive(Clone, Copy, Debug, PartialEq, Eq)]
pub struct Entry {
    pub at: usize,
    pub room: u32,
    pub tracked: bool,
}
