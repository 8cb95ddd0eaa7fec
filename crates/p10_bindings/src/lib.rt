//! Names and what they stand for, as the blocks of a C program declare and forget them (C99 6.2.1).
//!
//! [`Bindings`] keeps names in the order in which they were declared, each with a value of the owner's type: whether it is a
//! typedef name, or a type and a number. A look-up gives the value of the last name with a spelling; leaving a block forgets the
//! names that were declared last. Contracts see the list of names and values by `bound_in` of `specs/Bound.antt`.
//!
//! ```text
//! declare x 1, declare y 2, declare x 3    find x is 3, count is 3
//! keep 2                                   find x is 1, find y is 2
//! ```
//!
//! Invariant: a table knows the last name of each spelling, and each name the one before it with its spelling. So a look-up
//! and a declaration cost as much as the spelling is long, and forgetting costs as much as was declared. What counts as one block is left to the owner.
#![tactic(auto)]

mod bindings;
mod bound;
mod entry;

pub use bindings::Bindings;
pub use bound::Bound;
