//! Laws of the preprocessor, beside those that `p10_expand` and `p10_macros` state of their definitions themselves.
//!
//! Nothing runs here; the functions of [`laws`] stand for the laws. Some say that there is something where the crates below say that there
//! is one thing at most: each program expands to something, gathering ends, a run of words has an ending (`specs/Existing.antt`). Others say what a wrong
//! definition would break: which lines of small conditionals are obeyed, worked out by hand (`specs/Samples.antt`); that the name of
//! a function-like macro stays only where no `(` follows (`specs/Staying.antt`); that what a macro gives stands where its outermost use does
//! (`specs/Placed.antt`).
//! What the crates above need of expansion they take from `p10_expand`; nothing stands on these laws.
#![tactic(auto)]

pub mod laws;
