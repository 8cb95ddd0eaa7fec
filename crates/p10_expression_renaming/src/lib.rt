//! What expressions are in two programs where their words and all names in scope are the same: the same operands, but for places and for
//! the numbers of objects, literals and structures.
//!
//! Nothing runs here; the functions of [`laws`] stand for the laws. Nothing is said of a tree that a row refuses in one of the programs, so
//! that no order of rows and no place has to be compared (`specs/Knowing.antt`).
#![tactic(auto)]

pub mod laws;
