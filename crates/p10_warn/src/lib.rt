//! Holzmann's rule 10 on typed programs: what a compiler warns of with all warnings on.
//!
//! Entry point: [`warnings`], the violations of rows 10.1 to 10.8 by a typed program, in order, each once (`specs/Violations.antt`).
//! [`reach_end`] is what row 10.8 asks of a body, for the crates that ask it too.
//!
//! ```text
//! static int count(unsigned limit) { int n = 3; return n < limit; }
//! 10.2 at count (never called), 10.4 at n < limit (signed and unsigned), 10.3 at n (int to unsigned)
//! ```
//!
//! Rows on values and on `switch` are read off the nodes of the program one by one; what is never used, by marks for the numbers
//! that nodes name; hidden names, by a table of the names in scope and one of the objects of file scope; statements after a
//! jump and ends that are reached, by walks over the statements. Apart from sorting the time is linear in the program, except that
//! operands which may be constant are looked through at each conversion and comparison above them.
//! Nothing is asked of the program: the rows are defined for each. That it has no object or function of a built-in header's text is
//! left to the sources: built-in headers declare types and macros alone, and a word of a macro has the place of the macro's use.
#![tactic(auto)]

mod comparisons;
mod context;
mod conversions;
mod ends;
mod file_scope;
mod functions;
mod jumps;
pub mod laws;
mod listing;
mod marks;
mod named_extents;
mod nodes;
mod number_set;
mod numbers;
mod program_nodes;
mod rules;
mod scopes;
mod unused;

pub use ends::reach_end;
pub use rules::warnings;
