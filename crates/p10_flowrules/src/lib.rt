//! Holzmann's rules on the flow of a whole program: recursion (1.3), the end of the task loop (2.2), and memory that is allocated or
//! freed after initialisation (3.1).
//!
//! Entry points: [`flow_rules`], the violations of these rows, in order; and the rows singly, each in text order: the recursive calls
//! are `p10_calls::recursive_calls`, [`task_exits`] the statements that leave the task loop, and [`late_allocations`] the calls in
//! `main` after the mark `init_done` that are or reach an allocation or `free`.
//!
//! ```c
//! static int *buffer;
//! static void grab(void) { buffer = (int *)malloc(sizeof(int)); }
//! int main(void) {
//!     grab();                       // before the mark: no violation
//! #pragma p10 init_done
//!     grab();                       // 3.1
//!     return 0;
//! }
//! ```
//!
//! No condition is asked of the program. The time is linear in it, apart from sorting the violations.
#![tactic(auto)]

mod calls;
mod exits;
mod late;
pub mod laws;
mod main_body;
mod memory;
mod rules;

pub use calls::{AnyCall, Called};
pub use exits::{Breaks, task_exits};
pub use late::late_allocations;
pub use rules::flow_rules;
