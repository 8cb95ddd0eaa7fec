//! Clean certificates: that no run within a certificate comes to an operation that C99 leaves undefined.
//!
//! Entry point: [`clean`], which says of a certificate for a program that it is clean, or the first of conditions C1 to C8 that doesn't
//! hold, by number, then in program order, then in text order (`specs/Clean.antt`). So of
//!
//! ```c
//! static int q(int n) { return 100 / n; }                  // C2 at 100 / n, unless n is claimed to lie in a range without 0
//! int main(void) { return q(5); }
//! ```
//!
//! The conditions are asked at each node to which the pass comes, with what the pass knows there: that signed results fit (C1), divisors
//! aren't 0 (C2), shifts are defined (C3), indices lie in their arrays (C4), nothing is done by pointers (C5), what is read is set (C6),
//! functions with a result return one (C7), and no literal is written (C8). Which variables are set is decided by syntax alone
//! (`specs/Settings.antt`), and needs no ranges.
//! It is a function of any program and certificate, so nothing is asked of a caller; it fails only where memory runs out, and 2^32
//! functions count as that, too. What follows a statement is known by a pass over it, so a statement is passed once for each one
//! around it.
//! What clean certificates mean is left to the crates above.
#![tactic(auto)]

mod assigning;
mod cleaning;
mod flaw;
pub mod laws;
mod literals;
mod operations;
mod settings;
mod standing;
mod statements;
mod turns;
mod values;
mod ways;

pub use cleaning::clean;
pub use flaw::{Clean, Flaw};
