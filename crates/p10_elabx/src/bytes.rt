//! Numbers of bytes in allocations, by their form.

use crate::allocations::SizeOf;
use crate::judged::Judged;
use crate::problem::Problem;
use crate::shape::Shape;
use p10_base::At;
use p10_core::Value;

/// What is found in the number of bytes of an allocation.
#[derive(Drop)]
pub enum Bytes {
    /// The size of a type.
    Size(Result<Shape, Option<Problem>>),
    /// A product of the sizes of two types.
    Sizes(SizeOf, SizeOf),
    /// A product of the size of a type, with its place, and a number.
    Elements(At, Result<Shape, Option<Problem>>, Judged<Value>),
    /// A number of another form.
    Other,
}
