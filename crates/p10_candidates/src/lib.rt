//! What one loop may be claimed to count with: the ranks and the approaches that its guard offers, and which of the ranks stands.
//!
//! ```c
//! for (uint8_t i = 0; i < 10; i++) { .. }    // the guard offers the rank up 1 10, which stands: 10 turns
//! while (lo < hi) { .. }                     // the guard also offers that lo and hi approach each other
//! ```
//!
//! Entry points: [`candidates`], the ranks that are tried for a loop; [`loop_found`], the claim of the first that stands by itself, or one
//! without a bound; [`task_found`] and [`unreached_found`], the claims of the task and of a loop that no state reaches; and [`approaches`],
//! each comparison of two variables by `<`, `<=`, `>` or `>=` in the guard, where the loop assigns both. The definitions stand in `specs/`:
//! `Candidates.antt`, `Approaches.antt`, and which rank stands in `Trials.antt`.
//! Invariant: what is found of a loop depends on its text and on what is known at its entry alone; no claim stands in a trial.
//! Which loops there are, and what is known at their entries, is left to the crates above.
#![tactic(auto)]

mod changing;
mod claims;
mod course;
mod entry;
mod guard;
mod offers;
mod rounds;
mod standing;
mod trial;

pub use changing::any_trial;
pub use claims::claim_by;
pub use entry::LoopEntry;
pub use guard::{Candidate, candidates};
pub use offers::{Approach, approaches};
pub use rounds::Rounds;
pub use standing::{LoopFound, loop_found, task_found, unreached_found};
