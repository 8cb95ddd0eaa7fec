//! Certificates of programs: what can be claimed of their loops and functions without help.
//!
//! ```c
//! int main(void) {
//!     int s = 0;
//!     for (uint8_t i = 0; i < 10; i++) {     // loop 0 up 1 10 turns 10
//!         s += 2;
//!     }
//!     return s;                              // steps 121, 1 call, 5 bytes
//! }
//! ```
//!
//! Entry points: [`derive`], the certificate of a whole program, or the violations for which there is none; [`derive_diff`], the same
//! where two variables that approach each other may bound a loop's turns; [`bound_rules`], the violations alone; and [`function_found`],
//! the loops and the result of one function.
//!
//! The definitions stand in `specs/`: the walk that finds the claims of a function's loops in text order (`Loops.antt`), by what is
//! offered for a loop (`p10_approach`) or by its candidates (`p10_candidates`), what is claimed of functions (`Functions.antt`), the ranks
//! of loops (`Ranking.antt`), and what is answered of a program: violations, a limit, or one certificate (`Answers.antt`). What they say
//! of small programs is proved by computation ([`laws`]).
//! Invariant: each function comes after those that it calls, once for its result and once for its sums. What is found of it depends on
//! claims of its callees alone, so it stands when other claims change, and nothing is looked at again.
//! That a certificate which is found bounds every run is left to the crates that check certificates.
#![tactic(auto)]

mod calls;
mod counting;
mod derivation;
mod entering;
mod found;
mod functions;
pub mod laws;
mod limits;
mod looping;
mod results;
mod search;
mod summed;
mod text;
mod unsummed;
mod violations;
mod walk;

pub use derivation::{derive, derive_diff};
pub use found::{FinderFault, Found, RankedFound};
pub use functions::{FunctionFound, any_value, function_found};
pub use search::LoopsFound;
pub use violations::bound_rules;
