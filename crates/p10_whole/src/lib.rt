//! Whether a typed program is whole: what the machine that runs it, and all that reads it, may rely on.
//!
//! Entry point: `is_whole`, true only of a whole program (`IsWholeProgram` of `p10_core`): its types agree as the rows of the
//! operators say, its numbers name what is there and in scope, its initialisers fit their objects, and its sizes are right.
//! Each test is true only where the record that it is for holds, and each program that elaboration gives passes them all.
//! Invariant: a test looks at each node of a tree once, and takes no memory except for the numbers of the variables in scope, and
//! for the values of the labels of one `switch`.
#![tactic(auto)]

mod addresses;
mod around;
mod assignments;
mod calls;
mod clauses;
mod context;
mod conversions;
mod functions;
mod initializers;
mod items;
mod library;
mod listed;
mod main_function;
mod named;
mod objects;
mod operators;
mod order;
mod parts;
mod reads;
mod scalars;
mod shapes;
mod simple;
mod statements;
mod switches;
mod types;
mod values;
mod whole;

pub use whole::is_whole;
