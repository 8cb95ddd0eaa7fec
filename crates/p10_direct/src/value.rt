//! The values of constants and conditions.

/// A number, and whether its type is unsigned.
#[derive(Clone, Copy)]
pub struct Constant {
    pub value: i128,
    pub unsigned: bool,
}

/// The value of a condition's part.
#[derive(Clone, Copy)]
pub struct Value {
    /// Whether its type is unsigned.
    pub unsigned: bool,
    /// The number, or None where its evaluation stops.
    pub value: Option<i128>,
}
