//! What is known of a function's integer variables, and of the values of its trees.
//!
//! An abstract value ([`Abs`]) is a range, and perhaps the range of the difference from what a variable held at the head of
//! the innermost loop. An environment ([`Env`]) has one for each integer frame variable in scope. Entry points:
//! [`Env::entry`], [`Env::eval`], the abstract value of an integer, and [`Env::assume`], what is known where a scalar is true
//! or false. Where `x` lies in [0, 3]:
//!
//!     x + 1                    [1, 4]
//!     x != 0 && x < 9          true leaves x in [1, 3], false leaves it in [0, 3]
//!     1 / 0                    None: each evaluation ends
//!
//! The table stands in `specs/Assessing.antt`: a row for each form of value, by one walk that finds a value and both of its
//! outcomes at once, so each part of a tree is passed once. It is a function of any tree and environment, so nothing is asked
//! of a caller.
//! Invariant: an environment is one flat list by the variables' numbers, with a trail of what open branches changed
//! (`specs/Trails.antt`); a branch makes room for a note of each variable, so changes take no memory.
//! Statements, loops and whole functions are left to the crates above.
#![tactic(auto)]

mod abs;
mod assess;
mod branches;
mod changes;
mod compared;
mod comparing;
mod entry;
mod env;
mod found;
pub mod laws;
mod naming;
mod notes;
mod operators;
mod rows;
mod states;

pub use abs::Abs;
pub use comparing::turned;
pub use env::Env;
pub use operators::{
    binary_value, converted, hull_abstract, lies_within, only_range, values, whole_type,
};
