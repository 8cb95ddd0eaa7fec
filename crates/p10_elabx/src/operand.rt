//! Operands: values, places and functions' names.

use p10_base::At;
use p10_core::{Place, Value};

/// What a place is, as far as it counts for the order of evaluation and for `&`.
#[derive(Clone, Copy, Debug, PartialEq, Eq)]
pub enum PlaceKind {
    /// An object, or a part of one.
    Object,
    /// A scalar variable whose address is never taken.
    Frame,
    /// A sensor.
    Sensor,
}

/// An operand.
#[derive(Drop)]
pub enum Operand {
    Value(Value),
    Place(PlaceKind, Place),
    /// The name of a function, where it stands.
    Function(At),
}
