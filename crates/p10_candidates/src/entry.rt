//! A loop where it is entered.

use p10_absx::Env;
use p10_core::{Value, Variable};

/// A loop that is entered.
#[derive(Clone, Copy)]
pub struct LoopEntry<'a, 's> {
    /// The variables of its function.
    pub variables: &'a [Variable<'s>],
    /// Which of them it assigns, by their numbers.
    pub assigned: &'a [bool],
    /// Its guard: the test, where it has one.
    pub guard: Option<&'a Value>,
    /// What is known at its entry.
    pub entry: &'a Env,
}
