//! Blocks leave the names round them as they were: what declarations, statements and bodies declare stands after the names of the blocks
//! that were open, and is forgotten where their own block is closed.
//!
//! Nothing runs here; the function of [`laws`] stands for the law.
#![tactic(auto)]

pub mod laws;
