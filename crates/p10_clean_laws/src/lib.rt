//! Laws of clean certificates, beside those that `p10_clean` states of its definitions itself.
//!
//! Nothing runs here; the functions of [`laws`] stand for the laws. `p10_clean` tests operators at the ends of ranges; here stands what that
//! says of all their numbers: that the exact results lie in the type, and that no shift stops (`specs/Exact.antt`).
//! What the crates above need of clean certificates they take from `p10_clean`; nothing stands on these laws.
#![tactic(auto)]

pub mod laws;
