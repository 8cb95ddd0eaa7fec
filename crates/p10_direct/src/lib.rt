//! The directives of the preprocessor (C99 6.10): the lines of a file, one directive read or
//! refused, and the truth of an `#if` condition.
//!
//! Entry points: [`lines`], which cuts a file's words into directive lines and runs of text;
//! [`directive`], which reads one directive line; [`read_definition`], which reads the words of a
//! definition, also of one that is refused; and [`truth`], which gives the truth of a condition.
//!
//! Invariant: the words of the lines, joined, are the words of the file.
//! Which lines are obeyed, the replacement of macros, the files that an include names, and a name
//! that is defined twice are left to the crates above.
#![tactic(auto)]

mod balance;
mod condition;
mod constant;
mod cut;
mod definition;
mod evaluate;
mod form;
mod keyword;
mod line;
mod mark;
mod operator;
mod part;
mod read;
mod value;

pub use balance::part_of;
pub use condition::{one_condition, truth};
pub use cut::{lines, one_cut, split_line};
pub use definition::{has_pasting, is_variadic, read_definition};
pub use form::{Definition, DirectFault, Directive, Macro};
pub use keyword::{Keyword, directive_named};
pub use line::{Line, Lines};
pub use mark::Mark;
pub use read::{directive, one_outcome, whole};
