//! The evidence of ranges: that a loop keeps its claim on turns, by a trial pass over the loop alone.
//!
//! Entry point: [`RangeEvidence`], which is `p10_check`'s `Evidence`. It finds the loop, goes once round it from the ranges that the claim
//! gives its variables, and there tests the claim: the ranges hold at entry and again on each way back (K6, K7), the rank is at least 1
//! where the body is entered and has fallen on each way back (K8, K9), and isn't over the turns at entry (K10). In the trial nothing is
//! claimed: a call may return any value of its type, and an inner loop may give any value to what it assigns. So it stands for
//!
//! ```c
//! int i = 0; while (i < 3) { i = i + 1; }                 // up i 3 turns 3, with i in [0, 3]
//! ```
//!
//! and not for 2 turns of it. It is a function of any program and claim, so nothing is asked of a caller; it fails only where memory runs out.
//! Invariant: a search has passed as many loops as its number has fallen.
//! That such a loop does keep its turns is a law of `p10_turns`.
#![tactic(auto)]

mod ranges;
mod rounds;
mod seeking;

pub use ranges::RangeEvidence;
pub use seeking::loop_among;
