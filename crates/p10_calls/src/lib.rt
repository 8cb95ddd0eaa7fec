//! Which functions of a program call which, and in what order they can be judged.
//!
//! Entry points: [`order`], which gives each function a rank above those of the functions that it calls, or all calls that lie on a
//! cycle, of which there are none in a program that keeps Holzmann's rule 1; [`call_sites`], the calls of a program in text order;
//! [`call_graph`], its graph; and [`recursive_calls`].
//!
//! ```c
//! static int f(int n) { return n + 1; }                    // rank 0
//! static int g(int n) { return f(n) * 2; }                 // rank 1
//! int main(void) { return f(3) + g(4); }                   // rank 2
//! ```
//!
//! No condition is asked of the program: a call of a function that isn't there, of which a whole program has none, leads nowhere.
//! The time is linear in the program. What calls cost is left to the crates above.
#![tactic(auto)]

mod answer;
mod graph;
pub mod laws;
mod ordering;
mod ranking;
mod recursion;
mod sites;

pub use answer::{CallFault, Order};
pub use graph::call_graph;
pub use ordering::order;
pub use recursion::recursive_calls;
pub use sites::{CallSite, call_sites};
