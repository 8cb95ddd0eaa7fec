//! Numbers in the order in which they came, each once, found by their values.
//!
//! [`NumberList`] notes numbers, such as the values of the labels of a `switch`, and tells whether one was noted, at a cost that doesn't
//! grow with how many there are. Contracts see the list of them.
//!
//! ```text
//! add 7, add 3, add 7      the list is 7, 3; the last 7 wasn't new
//! ```
#![tactic(auto)]

mod number_list;

pub use number_list::NumberList;
