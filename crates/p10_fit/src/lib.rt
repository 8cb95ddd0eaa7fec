//! Whether a certificate speaks of a program: condition K1.
//!
//! Entry points: [`unfit`], which gives the function at which certificate and program differ, and [`fits_function`], whether a claim speaks
//! of one function. A certificate speaks of a program (`specs/Fits.antt`) where it has a claim for each function, in program order, with
//! its name, its kinds of parameters and of result, its loops with their depths and its task loop, where each number names an integer
//! frame variable that is in scope at the loop, and where each range lies in its type. So a claim `loop 0 up 1 10 turns 10` asks for a
//! loop that stands in no other, and for an integer variable with the number 1 that is in scope there.
//! Invariant of the walk: the claims that are left are those of the loops to come, whatever they are. It takes time linear in
//! the program and the certificate.
//! Whether what is claimed is true is left to the crates above.
#![tactic(auto)]

mod claims;
mod functions;
pub mod laws;
mod loops;
mod scope;
mod values;

pub use functions::{fits_function, task_loop_number, unfit};
