//! Whether a certificate for a program is to be believed: the conditions K0 to K14.
//!
//! Entry points: [`check`], the verdict, which is the certificate's total or the first condition that fails, with its place, by number,
//! then in program order, then in text order (`specs/Conditions.antt`); its parts [`check_shape`], the conditions that speak of no
//! values and sums, and [`check_one`], those of one function; and [`check_text`], the verdict on a certificate's text, of whose claims
//! the loops of one function are in memory at a time, and which comes to K0 first: whether it speaks of the program's words
//! (`specs/Texts.antt`). [`Evidence`] is what may help a loop to K8 to K10. So a certificate for
//!
//! ```c
//! static int f(int n) { return n + 1; }                    // 5 steps
//! int main(void) { return f(4); }                          // 9 steps
//! ```
//!
//! that claims 8 steps of `main` is refused by K11 at the name `main`, and one that claims rank 0 of it by K2 at the name in the call.
//! Each condition is a list of places in the definitions, and code puts its places down in the same order.
//! What accepted certificates mean is left to the crates above.
#![tactic(auto)]

mod checking;
mod claimed;
mod effects;
mod evidence;
mod failing;
mod function;
mod kept;
pub mod laws;
mod main_claims;
mod places;
mod ranked;
mod ranks;
mod reading;
mod shape;
mod sums;
mod text;
mod verdict;

pub use checking::check;
pub use evidence::Evidence;
pub use function::check_one;
pub use shape::{check_shape, check_shape_by_calls};
pub use text::check_text;
pub use verdict::{TextVerdict, Verdict};
