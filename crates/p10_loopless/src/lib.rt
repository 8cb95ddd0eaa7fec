//! What the conditions on one function ask of a certificate: its own claim, and all of the others but what they say of loops.
//!
//! Nothing runs here; the functions of [`laws`] stand for the laws. By them a certificate can be checked with the loops of one function
//! in memory at a time: what is known at the function's entry, what the pass over it leaves and what it costs stay the same
//! (`specs/Loopless.antt`).
#![tactic(auto)]

pub mod laws;
