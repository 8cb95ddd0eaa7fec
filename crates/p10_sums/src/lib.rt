//! What functions cost under a certificate's claims: steps, nested calls, bytes of frames, and whether they allocate or free.
//!
//! Entry points: [`sums`] for all functions of a program; [`sum_of`] for one, without memory, and [`capped_sum_of`], which says
//! which of its sums is over the limit. So a function
//! `int f(int n) { return n + 1; }` has 5 steps, 1 call and 4 bytes: its entry, the `return`, the operator, the read and
//! the constant.
//! The definitions in `specs/` have a line for each row of the table of steps (`Costs.antt`), and know no limit; numbers are
//! counted up to one more than the greatest sum that is allowed.
//! Invariant: what is counted of a tree is no less than what any run of it takes, as long as its callees and loops keep their
//! claims ([`laws`]). Whether they do is left to the crates above.
#![tactic(auto)]

mod basis;
mod counted;
mod functions;
mod initializers;
pub mod laws;
mod statements;
mod sum;
mod tally;
mod values;
mod widths;

pub use counted::sums;
pub use functions::{capped_sum_of, sum_of};
pub use sum::{FuncSum, SumFault, Sums};
