//! Structures are built one after the other: each was completed from others that were complete before it. Declarations and functions outside
//! of functions, and all that stands in them, leave them so, whichever rows of the subset hold.
//!
//! Nothing runs here; the functions of [`laws`] stand for the laws.
#![tactic(auto)]

pub mod laws;
