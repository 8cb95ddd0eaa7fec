//! What statements and declarations in blocks may change where they stand, one step at a time: the steps of declarations, names of types,
//! and blocks that are opened and closed again.
//!
//! Nothing runs here; the function of [`laws`] stands for the law. What holds of each step holds of whole bodies
//! (`proofs/Each.antt`), so that no relation between what stands before and after them needs a recursion of its own.
#![tactic(auto)]

pub mod laws;
