//! What elaboration makes is whole: structures, whatever is declared; what names stand for; types that specifiers name, and what
//! declarators make of them; what expressions become as statements and tests. And what is whole stays so where more is known.
//!
//! Nothing runs here; the functions of [`laws`] stand for the laws.
#![tactic(auto)]

pub mod laws;
