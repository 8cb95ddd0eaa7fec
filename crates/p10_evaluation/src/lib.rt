//! What evaluation is worth under an environment: the law of abstract values.
//!
//! Nothing runs here. The definitions in `specs/` say which calls a certificate's claims cover, and what is claimed of their
//! results (`specs/Claimed.antt`), and what is then known of each evaluation of a value (`specs/Laws.antt`); the functions of
//! [`laws`] stand for these laws. So where `x` lies in [0, 3] in a frame, a run of `x + 1` that gives a number gives one of [1, 4], and after a
//! run of `x != 0` that gave 1 the frame is one in which `x` lies in [1, 3].
//! Invariant: evaluation changes no variable of the frame, so what describes the frame before it does so after it.
//! Statements, loops and whole calls are left to the crates above.
#![tactic(auto)]

pub mod laws;
