//! What an accepted certificate is worth: every run of the program stays within it.
//!
//! Nothing runs here. `p10_check` says when a certificate is accepted for a program, and `p10_meaning` what a run is. The functions
//! of [`laws`] stand for what joins both. So where the certificate of
//!
//! ```c
//! int main(void) { int n = 0; while (n < 10) { n = n + 1; } return n; }
//! ```
//!
//! is accepted with a total of 121 steps, no run of it takes more, in any world.
//! The parts stand below: values (`p10_evaluation`), statements (`p10_execution`), loops (`p10_turns`), the task loop (`p10_task`),
//! sums (`p10_sums`) and allocation (`p10_allocation`); this crate joins them by induction on nested calls.
#![tactic(auto)]

pub mod laws;
