//! What programs have in common that have the same words outside of bodies, and in a function: their trees are the same there, but for
//! places, and stand in the same order.
//!
//! Nothing runs here; the functions of [`laws`] stand for the laws.
#![tactic(auto)]

pub mod laws;
