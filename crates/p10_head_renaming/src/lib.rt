//! Which numbers functions have in two programs that have the same words outside of bodies: the same.
//!
//! Nothing runs here; the functions of [`laws`] stand for the laws. Places differ in the two programs, and are compared in order alone.
#![tactic(auto)]

pub mod laws;
