//! What the roots of two programs declare and define outside of functions where their words are the same: the same names for the same, and
//! the same functions, but for places and for the numbers of objects, literals and structures.
//!
//! Nothing runs here; the functions of [`laws`] stand for the laws. They speak of one declaration or function after others, in which no row
//! holds up to its end, in either program (`specs/Roots.antt`).
#![tactic(auto)]

pub mod laws;
