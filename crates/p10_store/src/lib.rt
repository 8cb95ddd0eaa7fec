//! The objects of a run of a program: opened, read and written through pointers, and closed.
//!
//! Entry point: [`Store`]. Its scalars stand in one list; each object is a range of it, and has a number that
//! is new each time its slot is opened. An object is found by its number by a binary search, since numbers grow
//! from slot to slot. [`Shape`] says how many scalars a type has, [`Origin`] where an object comes from.
//! Contracts see a store as the objects of the meaning (`specs/Stores.antt`: `Held`): each call does to them, or
//! answers from them, what `p10_meaning` says of that move. `Store::place_mut` lends one cell; all others stay.
//! Invariant: the ranges follow one another, and numbers grow from slot to slot, below the count of opens.
//! Only `open` and `reserve` take memory; what room is left is part of what contracts see.
//! What programs do with objects, and the steps that this takes, are left to the crates above.
#![tactic(auto)]

mod filling;
mod finding;
mod shape;
mod slots;
mod store;

pub use p10_int::Stop;
pub use p10_meaning::{Cell, Ptr, Scalar, Window};
pub use shape::{Origin, Shape};
pub use store::Store;
