//! Changes of environments.

use crate::abs::Abs;

/// Something else in the entry of a variable.
#[derive(Clone, Copy)]
pub struct Change {
    pub variable: u32,
    pub known: Option<Abs>,
}

/// A side of a comparison: the variable that it is, perhaps under conversions that keep its range, and its value.
#[derive(Clone, Copy)]
pub struct Side {
    pub variable: Option<u32>,
    pub value: Option<Abs>,
}
