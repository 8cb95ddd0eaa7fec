//! What the bodies of functions are in two programs where their words and all names in scope are the same: the same statements and
//! variables, but for places and for the numbers of objects, literals and structures.
//!
//! Nothing runs here; the functions of [`laws`] stand for the laws. They speak of bodies in which no row holds up to their end, in either
//! program; then what stands after them is the same again, and what a body becomes, if none of it is refused (`specs/Bodies.antt`).
#![tactic(auto)]

pub mod laws;
