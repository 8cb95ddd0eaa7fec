//! What a declaration may change where it stands, one step at a time: problems are told; names, tags and structures become more; a
//! structure gets its members; a block is opened and closed again.
//!
//! Nothing runs here; the function of [`laws`] stands for the law. What holds of each step, and of steps one after the other, holds of
//! whole specifiers, declarators and initialisers (`proofs/Each.antt`), so that no relation between what stands before and after them
//! needs a recursion of its own.
#![tactic(auto)]

pub mod laws;
