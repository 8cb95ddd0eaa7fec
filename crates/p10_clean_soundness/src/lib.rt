//! What a clean certificate is worth: no run of the program ends in an operation that C99 leaves undefined.
//!
//! Nothing runs here. `p10_check` says when a certificate is accepted for a program, `p10_clean` when it is clean, and `p10_meaning` what a
//! run is; the functions of [`laws`] stand for what joins these. So where the certificate of
//!
//! ```c
//! static int q(int n) { return 100 / n; }
//! int main(void) { return q(5); }
//! ```
//!
//! claims [5, 5] of `n`, it is clean, and no run of it divides by 0.
//!
//! The definitions in `specs/private/` say what an execution keeps: `Setting.antt` which variables in scope are set, `Objects.antt` which objects are
//! live and set, `Standing.antt` both with a sound state. Invariant: all live objects are set but those that are being initialised,
//! and no object dies except at the end of its own block or call.
//! That values lie in the claimed ranges is taken from the crates below: a piece is shown here to end in no undefined operation, and no more.
#![tactic(auto)]

pub mod laws;
