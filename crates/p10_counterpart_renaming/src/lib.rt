//! What is known of two programs after a row of counterparts, of which some functions have bodies that differ: the same outside of bodies, and
//! the same function where its body is the same.
//!
//! Nothing runs here; the functions of [`laws`] stand for the laws. Structures are paired on the way, as both programs declare them.
#![tactic(auto)]

pub mod laws;
