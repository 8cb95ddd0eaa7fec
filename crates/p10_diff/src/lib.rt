//! Evidence for loops that end because two variables approach each other.
//!
//! Entry point: [`rank_stands`], whether a rank of a certificate stands for a loop. It goes once round the loop with `p10_walk`'s walk over a
//! domain ([`Differing`]). The domain keeps ranges and, for ordered pairs of names, an upper bound of their difference
//! (`specs/Differences.antt`); names are what variables hold now, and what they held at the loop's head. `specs/Expressions.antt` says by
//! how much a value differs from a name at most, halves of distances included, `specs/Domain.antt` what statements and conditions do to
//! it, and `specs/Evidence.antt` when a rank of a certificate stands for a loop; the functions of [`laws`] stand for what that is worth. So in
//!
//! ```c
//! while (lo < hi) { int mid = lo + (hi - lo) / 2; if (mid > 40) { hi = mid; } else { lo = mid + 1; } }
//! ```
//!
//! `mid` is at least `lo` and at most `hi - 1`, so each branch brings `hi - lo` down by 1 at least: where `lo` and `hi` lie in [0, 100] at
//! entry, a claim of 100 turns stands with `rank 0 0 0 1 0`, and one of 99 doesn't.
//! Invariant: in each frame with which a run comes to where something is known, each difference is at most its bound.
//! That callees keep their claims, and which certificates hold such ranks, is left to the crates above.
#![tactic(auto)]

mod assigning;
mod changes;
mod comparing;
mod conditions;
mod ends;
mod executing;
mod halving;
mod hulls;
mod kinds;
mod known;
pub mod laws;
mod limits;
mod listed;
mod naming;
mod operands;
mod ranks;
mod rows;
mod rules;
mod scopes;
mod sources;
mod tables;
mod updating;

pub use known::{Diff, Pair};
pub use ranks::{Fact, Rank, rank_stands};
pub use rules::Differing;
