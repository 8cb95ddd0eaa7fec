//! What names stand for.

use p10_base::ListBuf;
use p10_core::CType;

/// What a name stands for.
#[derive(Drop)]
pub enum Named {
    /// A variable of the function, and whether it is a frame variable: a scalar whose address is never taken.
    Var {
        number: u32,
        ty: CType,
        frame: bool,
    },
    /// An object of static lifetime, and whether it is a sensor.
    Global {
        number: u32,
        ty: CType,
        sensor: bool,
    },
    Function {
        number: u32,
        params: ListBuf<CType>,
        result: CType,
    },
    /// A constant of an enumeration.
    Constant(i128),
    /// A type that `typedef` named.
    Typedef(CType),
    /// A type by its tag.
    Tag(CType),
    /// A name whose declaration was refused: nothing is said of its uses.
    Unknown,
    /// A tag whose declaration was refused.
    UnknownTag,
}
