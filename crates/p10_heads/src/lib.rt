//! What the roots of a program define, with a number for each function and object (C99 6.2.2, 6.9, 6.9.2).
//!
//! Entry points: [`heads_of_units`], what all roots define, in the order in which numbers are given; [`Heads`], which finds the number
//! of a name with linkage, or of an object in a block by its place, each in a table; [`root_length`] and [`rest_from`], which
//! cut one list of declarations and functions where a root begins.
//! It is known before any declaration is looked at, so that the uses of a name have its number wherever they stand: the first of
//! several tentative definitions is the one that counts where no declaration of the name has an initialiser.
//! Definitions: `heads_of_roots` (`specs/Heads.antt`), `roots_of` (`specs/Roots.antt`).
#![tactic(auto)]

mod block_numbers;
mod defined;
mod first_names;
mod head;
mod heads;
pub mod laws;
mod numbers;
mod outline;
mod outlines;
mod root_heads;
mod roots;
mod sites;
mod statics;

pub use defined::heads_of_units;
pub use head::Head;
pub use heads::Heads;
pub use outlines::is_static;
pub use roots::{rest_from, root_length};
