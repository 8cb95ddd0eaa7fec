//! What the conditions of a certificate ask of a function: its view, in which it has no places and no numbers of objects, literals and
//! structures.
//!
//! Nothing runs here; the functions of [`laws`] stand for the laws. By them a function that an edit left as it was needs no second pass:
//! where no condition on it failed before, none fails after it, though all its places have moved (`specs/Laws.antt`). So in
//!
//! ```c
//! static int seen;
//! static int f(int n) { seen = n; return n + 1; }
//! ```
//!
//! `f` has the view that it has below another line, and with another object before `seen`.
#![tactic(auto)]

pub mod laws;
