//! What declarators make of types, and the lengths of arrays.

use p10_base::At;
use p10_core::CType;

/// What a declarator makes of a type.
#[derive(Drop)]
pub enum Shape {
    /// A type.
    Plain(CType),
    /// An array of a type, whose length is lacking.
    OpenArray(CType),
    /// A function, with the types of its parameters and its result.
    Function(Vec<CType>, CType),
}

/// What the declarator round another one makes, by its form.
#[derive(Clone, Copy, Debug, PartialEq, Eq)]
pub enum Made {
    Nothing,
    Pointer,
    Array,
    /// An array whose length is lacking.
    OpenArray,
    Function,
}

/// The length of an array.
#[derive(Clone, Copy, Debug)]
pub struct Length {
    /// Where its expression stands.
    pub at: At,
    /// How many elements there are.
    pub count: u64,
}
