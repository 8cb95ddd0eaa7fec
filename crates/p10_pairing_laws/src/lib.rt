//! What is the same in two programs stays so where more structures are paired: functions, and scopes in which the structures of the new
//! pairs don't stand yet.
//!
//! Nothing runs here; the functions of [`laws`] stand for the laws.
#![tactic(auto)]

pub mod laws;
