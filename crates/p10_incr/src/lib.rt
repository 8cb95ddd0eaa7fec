//! Verifying again after an edit: the verdict on a certificate, for which only those functions are passed that the edit can have touched.
//!
//! Entry point: [`recheck`]. It is given the program after the edit with the digests of its words, and two certificates: one that was
//! accepted before the edit, and the one to be judged. A function is touched where its digest, or what is claimed of it, isn't what it
//! was; after a change outside of bodies, or of the evidence of differences, all are (`specs/Edits.antt`). Touched functions and those
//! that call one are dirty: K3 and K5 to K12 are tried for these alone, and K0 to K2, K4, K13 and K14 for all (`specs/Rechecking.antt`).
//! So after an edit of `f` in
//!
//! ```c
//! static int f(void) { return 1; }
//! static int g(void) { return f(); }
//! static int h(void) { return 2; }
//! int main(void) { int a = g(); int b = h(); return a ^ b; }
//! ```
//!
//! `f` and `g` are passed. Each pass goes through a [`Passer`], which tells what it passed; [`PlainPasser`] passes by the crate below.
//! That a function which isn't dirty keeps its conditions is no part of this crate; where it does, the verdict is that on the whole
//! certificate (`specs/Laws.antt`).
#![tactic(auto)]

mod alike;
mod dirty;
mod edit;
mod first;
pub mod laws;
mod passer;
mod rechecking;
mod sections;
mod stale;

pub use passer::{Passer, PlainPasser};
pub use rechecking::recheck;
