//! The integers of C: twelve types with their ranges, promotion, the usual arithmetic conversions,
//! conversion, and every operator with the stops that it can end in.
//!
//! Entry point: [`apply`], a binary operator on two converted operands.
//! Invariant: an operation on numbers of a type gives a number of that type, or a stop; it never
//! wraps where C99 leaves the behavior undefined, and takes no memory.
//! Literals, pointers, and where in a program a conversion stands are left to the crates above.
#![tactic(auto)]

mod arithmetic;
mod bits;
mod conversion;
pub mod laws;
mod operators;
mod types;

pub use conversion::convert;
pub use operators::{BinOp, Stop, UnOp, apply, unary};
pub use types::{IntType, holds, is_signed, promote, range, usual, width};
