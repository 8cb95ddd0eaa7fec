//! What declarations and functions of roots may change where they stand, one step at a time: the steps of declarations in blocks and of
//! bodies, and other names and tags, since each root begins with none and each body with those of its parameters.
//!
//! Nothing runs here; the function of [`laws`] stands for the law. What holds of each step holds of all roots (`proofs/Each.antt`),
//! so that no relation between what stands before and after them needs a recursion of its own.
#![tactic(auto)]

pub mod laws;
