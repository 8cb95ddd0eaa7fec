//! Laws of what is known of values, beside those that `p10_absx` states of its definitions itself.
//!
//! Nothing runs here; the functions of [`laws`] stand for the laws. What is known of an expression of constants is its one value
//! (`specs/Constants.antt`), which a table that gives whole types would break.
//! What the crates above need of abstract values they take from `p10_absx`; nothing stands on these laws.
#![tactic(auto)]

pub mod laws;
