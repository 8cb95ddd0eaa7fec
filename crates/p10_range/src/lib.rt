//! Ranges of whole numbers, and what the operators of C give on them.
//!
//! A [`Range`] stands for each number from its least to its greatest. Entry points: [`binary`],
//! [`unary`] and [`convert_range`], which hold every result of `p10_int` on numbers of their
//! operands, and [`hull`], [`meet`] and [`within`]. At `int`:
//!
//!     [5, 6] + [7, 9]          [12, 15]
//!     [7, 7] / [0, 2]          [3, 7]
//!     [1, 9] / [0, 0]          None
//!
//! Invariant: a range has a number. Where a row has none it is `None`, and every pair stops.
//! Nothing here takes memory. Offsets, environments and refinement are left to the crates above.
#![tactic(auto)]

mod arithmetic;
mod bits;
mod comparisons;
mod division;
mod fitting;
pub mod laws;
mod operators;
mod ranges;
mod sets;
mod shifts;

pub use operators::{binary, convert_range, unary};
pub use ranges::Range;
pub use sets::{hull, meet, within};
