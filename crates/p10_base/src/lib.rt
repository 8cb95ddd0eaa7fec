//! What every layer of `p10` speaks of: places in files, words, violations, refusals, limits,
//! bounds and digests, and the gathered source files.
//!
//! Entry points: [`Sources`], the files of a program with their names, words, roots and include links; [`Word`], which
//! definitions see as a `PlainWord`, without where its text lies in memory; [`Refusal`] and [`Limit`], with a name for
//! each code that is printed, as in `Refusal::word(WordCode::Trigraph, span)`, which is X5, and `Limit::FILES`, which is
//! M7; [`NameList`], names that are found by their spelling; [`ListBuf`] and [`TextBuf`], which contracts see as what they
//! hold; and [`boxed`], with which trees are made.
//!
//! Invariant: every number in a `Sources` names a file that it holds. Reading files, cutting them
//! into words and printing are left to the crates above.
#![tactic(auto)]

mod at;
mod boxes;
mod buffers;
mod codes;
mod digest;
mod hexadecimal;
mod name_list;
mod report;
mod sources;
mod span;
mod word;

pub use at::At;
pub use boxes::{boxed, boxed_pair, boxed_triple};
pub use buffers::{ListBuf, TextBuf};
pub use codes::{DirectiveCode, SubsetCode, WordCode};
pub use digest::{Digest, Digests};
pub use hexadecimal::hex;
pub use name_list::NameList;
pub use report::{Bounds, Family, Limit, Refusal, Sub, Violation};
pub use sources::Sources;
pub use span::Span;
pub use word::{Kind, Word, WordPlace};
