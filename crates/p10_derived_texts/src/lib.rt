//! A certificate that is derived has a text: what is claimed of a whole program, where no number exceeds its limit, is what a
//! certificate may claim, so it can be written, and what is read of its text are the same claims.
//!
//! Nothing runs here. `p10_finder` says what is claimed, and `p10_cert` what a certificate may claim; the functions of [`laws`] stand
//! for what joins both. So what is derived of
//!
//! ```c
//! int main(void) { int n = 0; while (n < 10) { n = n + 1; } return n; }
//! ```
//!
//! has lines that rise by their variables' numbers, depths that nest, and ranges with a number in them.
//! Invariant: a claim on a loop says nothing but what was known when it was found, and all that is known is of its variable's
//! type (`p10_known`).
#![tactic(auto)]

pub mod laws;
