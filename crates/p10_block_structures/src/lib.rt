//! Blocks leave the structures round them as they were: what is declared in a body are new structures, and those that it completes are
//! declared in it, where no tag of its own block stands for another one when it begins.
//!
//! Nothing runs here; the function of [`laws`] stands for the law.
#![tactic(auto)]

pub mod laws;
