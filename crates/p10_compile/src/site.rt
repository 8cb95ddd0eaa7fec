//! Where trees stand.

use p10_core::{Program, Variable};
use std::alloc::Global;

/// Where trees stand: the program, and the variables of their function. Their code is made by this allocator.
#[derive(Clone, Copy)]
pub struct Site<'p, 's> {
    pub alloc: Global,
    pub program: &'p Program<'s>,
    pub variables: &'p [Variable<'s>],
}
