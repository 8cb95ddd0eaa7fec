//! Claims of loops in which two variables approach each other.
//!
//! ```c
//! static int find(int lo, int hi) {         // lo and hi in [0, 100] at the loop's entry
//!     while (lo < hi) {                      // loop 0 one turns 100, rank 0 0 0 1 0
//!         int mid = lo + (hi - lo) / 2;
//!         if (mid > 40) { hi = mid; } else { lo = mid + 1; }
//!     }
//!     return lo;
//! }
//! ```
//!
//! Entry points: [`first_approach`], the claim of the first of the approaches which a loop's guard offers (`p10_candidates`) whose rank
//! stands (`p10_diff`), with the least turns that are enough; and [`rank_of`], that rank. `specs/Approaches.antt` has the definitions.
//! Invariant: a claim that is given stands by the rank of the approach that is given with it, whatever stands elsewhere. In which order
//! loops are looked at, and what is claimed where nothing stands, is left to the crates above.
#![tactic(auto)]

mod standing;

pub use standing::{Approached, Site, first_approach, rank_of};
