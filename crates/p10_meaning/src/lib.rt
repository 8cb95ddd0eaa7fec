//! What a run of a whole program is: states, the values of expressions, the execution of
//! statements, calls and whole runs with their steps, depths and ends (C99 5.1.2.3, 6.5, 6.8, 6.9).
//!
//! The definitions in `specs/` are the entry point, and this crate's purpose: `evaluate`, `execute`
//! and `call_at` say what a program does, `run_of` what a whole run gives, and `Within` what it is
//! to stay within bounds. They know no ranges, ranks or bounds, and no way to prove anything; that
//! is left to the crates above. Code stands here only where a definition needs a type of the
//! program's own: pointers and scalars ([`Ptr`], [`Scalar`], [`Cell`]), and the world outside ([`World`]).
//! Invariant: a run is one thing. The meaning is a function of the program, the world and the
//! budgets.
//! The module [`laws`] states what holds of it, as contracts of functions that do nothing.
#![tactic(auto)]

pub mod laws;
mod pointers;
mod world;

pub use pointers::{Cell, Ptr, Scalar, Window};
pub use world::World;
