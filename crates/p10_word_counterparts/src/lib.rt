//! What joins the words of files to their trees: programs that have the same words outside of bodies have the same declarations there, and
//! the same heads of functions; and the same body of a function that has the same words.
//!
//! Nothing runs here; the functions of [`laws`] stand for the laws.
#![tactic(auto)]

pub mod laws;
