//! What values are evaluated in.

use crate::held::Held;
use p10_core::Program;
use p10_store::Store;

/// How deep a tree may be that is evaluated at once.
pub const DEPTH: u32 = 16;

/// The program, what stands for the variables of the innermost call, and the objects.
#[derive(Clone, Copy)]
pub struct Surroundings<'a> {
    pub p: &'a Program<'a>,
    pub held: &'a [Held],
    pub store: &'a Store,
}
