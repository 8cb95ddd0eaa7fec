//! Macros of the preprocessor (C99 6.10.3): the table of those that are defined, and the replacement of all their uses
//! in a run of words.
//!
//! Entry points: [`Macros`], the table; and [`replace`], which gives the words of a run after the replacement, or says
//! how it is refused. No name stands in a table twice, since only a name that isn't there is put after the others.
//! Directives, files and conditions are left to the crates above.
#![tactic(auto)]

mod ahead;
mod expansion;
mod giving;
mod kept;
mod known;
mod origin;
mod own;
mod parameters;
mod pending;
mod places;
mod replaced;
mod replacement;
mod run;
mod same;
mod sets;
mod table;
mod values;

pub use expansion::{front_gives, no_object_left, one_ending, replace};
pub use replaced::{ReplaceFault, Replaced};
pub use table::{Effect, Macros, undefines_one};
