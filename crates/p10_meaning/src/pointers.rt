//! Pointers, scalars and the cells that hold them.

ghost use Rattle.std.specs.Prelude.{◌≡◌};
ghost use Rattle.p10_meaning.specs.Pointers.{read_of};

use p10_int::Stop;

/// An array in an object, as a window on the object's scalars.
///
/// Numbers name it in place of a path: a path can have any length, and a pointer is copied.
#[derive(Clone, Copy, Debug, PartialEq, Eq)]
pub struct Window {
    /// How many scalars of the object stand before the array.
    pub start: u64,
    /// How many scalars an element has.
    pub stride: u64,
    /// How many elements the array has.
    pub count: u64,
    /// Whether each position on the way to the array lies in its own array, so that the array lies in the object.
    pub inside: bool,
    /// Whether the array is the whole object.
    pub whole: bool,
}

/// A pointer: null, or a position in an array of an object (C99 6.5.6p8).
#[derive(Clone, Copy, Debug, PartialEq, Eq)]
pub enum Ptr {
    /// The null pointer.
    Null,
    /// The object's number, the array in it, and a position from 0 to the array's length: at that length it is one past the last element.
    To {
        object: u128,
        window: Window,
        position: u64,
    },
}

/// A value of scalar type (C99 6.2.5p21).
#[derive(Clone, Copy, Debug, PartialEq, Eq)]
pub enum Scalar {
    /// A whole number.
    Int(i128),
    /// A pointer.
    Pointer(Ptr),
}

/// What holds one scalar: it is unset until it is given one.
#[derive(Clone, Copy, Debug, PartialEq, Eq)]
pub struct Cell {
    /// The scalar, or nothing where it is unset.
    pub value: Option<Scalar>,
}

impl Cell {
    /// The scalar in the cell, or U8 exactly where it is unset (C99 6.3.2.1p2).
    pub fn get(&self) -> Result<Scalar, Stop>
        ensures { result ≡ read_of self.now }
    {
        match self.value {
            Some(scalar) => Ok(scalar),
            None => Err(Stop::U8),
        }
    }
}
