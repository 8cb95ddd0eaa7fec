//! Laws of the ranges of operators, beside those that `p10_range` states of its rows itself.
//!
//! Nothing runs here; the functions of [`laws`] stand for the laws. `p10_range` says that a row has each result; here stands that it has
//! no more than that, which a row with all values of the type would break (`specs/Tight.antt`).
//! What the crates above need of ranges they take from `p10_range`; nothing stands on these laws.
#![tactic(auto)]

pub mod laws;
