//! The machine that runs the code of a program: one loop over flat operations.
//!
//! Entry point: [`run_on`], which goes on from where a machine stands until the run is over, comes to its task loop, or needs the
//! outside: a byte of input where none is pending, or room for output. What it comes to is what the code comes to by `p10_code`, and
//! so what the program means; the loop knows neither trees nor laws, and its measure is the number of operations that are left.
//! Between two operations a machine is one record of `p10_code` (`specs/Views.antt`: `config_of`), field by field, so that each
//! operation is one equation (`specs/Turns.antt`).
//! Invariant: none that callers have to keep. No call of the program takes native stack.
//! Sources, sinks and whole runs are left to the crates above.
#![tactic(auto)]

mod acting;
mod allocating;
mod calling;
mod computing;
mod filling;
mod frames;
mod hastening;
mod kinds;
pub mod laws;
mod library;
mod listed;
mod machine;
mod objects;
mod operators;
mod outside;
mod queue;
mod quick;
mod running;
mod scalars;
mod slots;
mod turned;
mod turning;
mod widths;

pub use allocating::{put_cell, put_zeros_of_one};
pub use kinds::{Kind, convert_to_kind, kind_at, zero_of_kind};
pub use machine::{Caller, Depth, Machine, Spot};
pub use outside::Outside;
pub use queue::Queue;
pub use quick::{Quick, quicken};
pub use running::{Loaded, run_on};
pub use slots::{Slot, Target};
pub use turned::{Ending, Full, Paused};
pub use widths::width_of;
