//! The task loop of `main` under a certificate's claims: what is claimed at its head holds in every turn of every run.
//!
//! Nothing runs here. The definitions in `specs/` say where the pass over `main` comes to the task loop and what its claim says there
//! (`specs/Coming.antt`), and what it is that a run keeps its claims along the way (`specs/Covering.antt`); the functions of [`laws`]
//! stand for the laws. So where `int n = 0; while (1) { n = (n + 1) % 26; }` is the task loop, and its claim says that `n` lies in
//! [0, 25], no run comes to the loop with another `n`, however many turns it makes.
//! Invariant: a turn begins in a sound state and a frame that the claim's environment describes, and ends in such ones (K7). How much a
//! turn takes, and that other loops end, is left to other crates.
#![tactic(auto)]

pub mod laws;
