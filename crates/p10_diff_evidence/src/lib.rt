//! The evidence of differences: that a loop keeps its claim on turns because two variables approach each other, as a section of its
//! certificate says.
//!
//! Entry point: [`DiffEvidence::new`], from the lines of the section `diff`. It is `p10_check`'s `Evidence`: it stands where the evidence
//! of ranges does, and else where a line `rank F L X Y C` of the section names the loop and `p10_diff` finds that the rank stands. So with
//!
//! ```text
//! rank 0 0 0 1 0
//! ```
//!
//! `while (lo < hi) { .. }` of function 0, whose variables 0 and 1 are `lo` and `hi`, may claim as many turns as `hi - lo` is at entry. A
//! rank that names nothing stands for nothing. A line of another form is answered with its number, counted from 1 (`specs/Sections.antt`).
//! Invariant: ranks rise by function and loop, so a loop has at most one.
//! That such a loop does keep its turns is a law of `p10_diff`, for whatever ranks.
#![tactic(auto)]

mod evidence;
mod fault;
pub mod laws;
mod lines;
mod reading;
mod writing;

pub use evidence::DiffEvidence;
pub use fault::DiffFault;
pub use writing::section_lines;
