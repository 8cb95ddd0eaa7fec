//! The functions of a program that is read have names of C: what a certificate's text asks of a program's names.
//!
//! Nothing runs here. `p10_expand` says what the files of a program expand to, `p10_syn` which trees spell these words, and `p10_elab`
//! which typed program the trees are; the functions of [`laws`] stand for what holds of it. A name in a tree is a word of a file, and
//! the lexer takes only letters, digits and `_` for a name, of which the first is no digit (C99 6.4.2.1).
//! So a certificate that is derived of such a program has a text (`p10_derived_texts`).
#![tactic(auto)]

pub mod laws;
