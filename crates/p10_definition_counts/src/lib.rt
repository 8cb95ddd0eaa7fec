//! How many functions a program has: one at most for each definition in its trees, in their order. So where it has as many functions as
//! trees define, the function with a number is that of the definition with this number.
//!
//! Nothing runs here; the functions of [`laws`] stand for the laws.
#![tactic(auto)]

pub mod laws;
