//! What execution is worth under an environment: the law of statements.
//!
//! Nothing runs here. The definitions in `specs/` say in which frames and states a statement is executed (`specs/Standing.antt`), what a
//! pass says of what it leaves (`specs/Leaving.antt`), and what bounds a loop (`specs/Bounding.antt`); the functions of [`laws`] stand for
//! the laws. So where `x` lies in [0, 3] before `if (x < 2) x = 5;`, the pass says [2, 5] after it, and every execution that ends leaves `x` there.
//! Invariant: no object stands for a variable that is held in the frame, so only assignments to it change it.
//! That calls under a certificate keep its claims is a premise here, and left to the crates above; so is what bounds a loop without a rank.
#![tactic(auto)]

pub mod laws;
