//! The law of first rows: of all rows of the subset that hold in the trees of roots, the first by the order of the text is answered. And
//! laws that see rows left out: what is told of a part is told of the declaration, the function and the roots in which it stands; and rows on
//! forms, on sizes and on declarations that don't agree are told whatever else is refused there. And the labels of each `switch` are those
//! that its tree has, each with the value of its own constant.
//!
//! What trees come to is defined twice by one text, with a way to keep rows (`p10_elabx/specs/First.antt`): `every` keeps each row
//! that holds anywhere, and `only_first` keeps, at each part, the first one alone, as the code does. Entry point:
//! [`the_first_of_all_is_told`]. The crate has no code: only the laws and their proofs. That of the first says at each part of a declaration, of
//! a statement and of a root that the same is made, and that of all rows the first is kept (`proofs/Alike.antt`).
#![tactic(auto)]

pub mod laws;

pub use laws::{
    declarations_are_told, declarators_are_told, definitions_are_told,
    labels_of_switches_are_those_written, misplaced_bodies_are_told, name_forms_are_told,
    parts_of_bodies_are_told, parts_of_declarations_are_told, redeclarations_are_told,
    repeated_labels_are_told, sizes_are_told, the_first_of_all_is_told,
};
