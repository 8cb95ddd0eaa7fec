//! Parts of a condition that were read.

use crate::value::{Constant, Value};
use p10_int::UnOp;

/// A part of a condition that was read.
#[derive(Clone, Copy)]
pub struct Part {
    pub value: Value,
    /// The depth of its tree.
    pub depth: u32,
    /// The place of the word after it.
    pub place: usize,
}

/// The first word of an operand.
#[derive(Clone, Copy)]
pub enum Start {
    /// `(`.
    Group,
    /// An operator before its operand.
    Sign(UnOp),
    /// A constant.
    Lone(Constant),
    /// None of these.
    Nothing,
}
