//! The task loop doesn't end (Holzmann, "The Power of Ten", 2006, rule 2).
//!
//! Nothing runs here. `p10_flowrules` says which statements leave the task loop, `p10_meaning` what a turn of it is, and `p10_check` when a
//! certificate is accepted. The functions of [`laws`] stand for what joins these: where no statement is listed that leaves the loop of
//!
//! ```c
//! int main(void) {
//!     int n = 0;
//! #pragma p10 task_loop
//!     for (;;) { n = (n + 1) % 26; putchar('A' + n); }
//! }
//! ```
//!
//! each turn goes on with the next or ends the run, and within an accepted certificate it ends the run at a failed assertion or at an
//! undefined operation alone.
#![tactic(auto)]

pub mod laws;
