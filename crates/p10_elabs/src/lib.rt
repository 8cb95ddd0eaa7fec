//! Statements and the declarations in blocks: what they come to in a function, and the first row of the subset that holds in them
//! (C99 6.7, 6.8).
//!
//! Entry points: [`items_done`], what the items of a block come to: the walk over statements; [`addresses_taken`], the variables of a
//! function that are no frame variables, found by a walk before its body; [`marks_noted`], the rows on the pragmas of `main`;
//! [`Local`], what is known in a function after some statements; [`specified_in`], [`object_type`] and [`initialized_by`], the parts
//! of a declaration that are alike in blocks and outside of functions.
//! Definitions: `items_done` (`specs/Statements.antt`), `declared_locally` (`specs/LocalDeclarations.antt`), `specified_in`
//! (`specs/Locals.antt`), `addresses_taken` (`specs/Addresses.antt`), `marks_noted` (`specs/Marks.antt`).
#![tactic(auto)]

mod both;
mod case_labels;
mod cases;
mod clauses;
mod conditions;
mod constants;
mod declarations;
mod expressions;
mod forms;
mod frame;
mod items;
mod kind;
mod labels;
pub mod laws;
mod local;
mod locals;
mod marking;
mod marks;
mod pieces;
mod returns;
mod round;
mod specifiers;
mod starts;
mod statement;
mod switches;
mod taken;
mod taken_set;
mod variables;
mod walk;

pub use constants::constants_of;
pub use frame::Frame;
pub use items::{Items, no_items};
pub use kind::Kind;
pub use local::Local;
pub use locals::{
    bytes_of, filled_array, initialized_by, is_written, no_initializer, object_type, open_noted,
    specified_in, typedef_passed, unknown_in,
};
pub use marks::marks_noted;
pub use round::Round;
pub use specifiers::{brackets_of, is_typedef, makes_sensors};
pub use statement::items_done;
pub use taken_set::TakenSet;
pub use walk::addresses_taken;
