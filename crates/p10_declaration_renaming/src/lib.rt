//! What declarations declare in two programs where their words and all names in scope are the same: the same types, tags, constants and
//! initialisers, but for places and for the numbers of objects, literals and structures.
//!
//! Nothing runs here; the functions of [`laws`] stand for the laws. They speak of declarations in which no row holds up to their end, in
//! either program; then what stands after them is the same again (`specs/Standings.antt`).
#![tactic(auto)]

pub mod laws;
