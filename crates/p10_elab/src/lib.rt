//! Typed programs of the trees of roots: declarations and functions outside of functions, and the program of all roots (C99 6.9).
//!
//! Entry point: [`elab`]. `elaborated` (`specs/Programs.antt`) says what the trees of roots come to: a typed program, the first of the
//! rows S1 to S30 that hold in them, or limit M8. So `int main(void) { return n; }` comes to row S1 at `n`.
//! Invariant: a program that is answered is whole (`p10_whole`).
//! In code: [`Known`], what is known after some declarations, and [`add_linked`], a declaration with linkage after them.
//! What roots define is left to `p10_heads`, linkage to `p10_linkage`, statements and declarations in blocks to `p10_elabs`, types, tags
//! and names of declarations to `p10_elabd`, expressions to `p10_elabx`, and what is read off programs to `p10_program`.
#![tactic(auto)]

mod bodies;
mod body_parameters;
mod body_scopes;
mod declared_names;
mod definitions;
mod elaboration;
mod fault;
mod known;
pub mod laws;
mod linking;
mod mains;
mod naming;
mod numbered;
mod outer_declarations;
mod outer_object;
mod outer_objects;
mod outer_sites;
mod outer_types;
mod prototypes;
mod root_end;
mod root_walk;
mod setting;
mod settling;
mod sightings;
mod use_words;

pub use elaboration::elab;
pub use fault::ElabFault;
pub use known::{Known, add_linked, nothing_known};
pub use linking::{Linking, is_refused, linked_of};
pub use naming::named_by;
pub use outer_object::{OuterObject, Sighting};
pub use root_end::{extents_of, note_names, note_sizes};
pub use sightings::Sightings;
