//! One walk over statements for every domain of what may be known of variables, with its law and the law of evidence.
//!
//! A domain is a record of operations (`specs/Operations.antt`), in the code the trait [`Rules`]. [`walk`] goes over all forms of statement
//! and forgets what inner loops may change (`specs/Walking.antt`); [`one_round`] goes once round a loop. `specs/Soundness.antt` says when
//! a domain is sound, and `specs/Turns.antt` which facts about one round of a loop bound its turns. The lemmas `walks_sound` and
//! `ranks_bound_turns` are over any sound domain; the functions of [`laws`] stand for them over ranges (`specs/Ranges.antt`), the first
//! domain. So where `i` lies in [0, 9] before `if (i < 5) { j = 3; } else { j = 8; }`, the walk over ranges knows j in [3, 8] after it.
//! The walk is a function of any statement and of what is known, so nothing is asked of a caller; it fails only out of memory.
//! Invariant: what is known at each end describes every frame with which a run ends so, but for `return`, of which nothing is said.
#![tactic(auto)]

mod ends;
pub mod laws;
mod marks;
mod rounds;
mod rules;
mod statements;

pub use ends::Ends;
pub use marks::changed_marks;
pub use rounds::Round;
pub use rules::Rules;
pub use statements::{one_round, walk, walk_all};
