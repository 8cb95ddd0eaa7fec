//! A whole run of a typed program: `main` up to its task loop or to its end, and then one turn of the loop after the other, each
//! with a fresh budget of steps.
//!
//! Entry point: [`run`], which takes a program, a [`Budget`], values of sensors, a source and a sink, and gives a
//! [`FinishedRun`]: how the run ended, and how deep it went. What it gives and what the sink took are exactly what the meaning's
//! `run_of` says of a world with the source's bytes as its input, one denied request at most and these values of sensors
//! (`specs/WholeRuns.antt`).
//! Invariant: none that callers have to keep. How a machine works, and what is printed of a run, is left to other crates.
#![tactic(auto)]

mod budget;
mod finished;
mod turns;
mod whole;

pub use budget::Budget;
pub use finished::{FinishedRun, RunOutcome};
pub use p10_interp::RunFault;
pub use whole::run;
