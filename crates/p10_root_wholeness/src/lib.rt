//! Of the program that roots come to the structures are whole, and all sizes within limits; what names stand for is whole at the end of
//! the last root, and what is known there is known where the roots are taken together.
//!
//! Nothing runs here; the functions of [`laws`] stand for the laws.
#![tactic(auto)]

pub mod laws;
