//! The entries of an environment, and the notes of a trail.

use crate::abs::Abs;

/// What is known of a variable.
#[derive(Clone, Copy)]
pub struct Entry {
    /// Nothing is known of what is no integer frame variable in scope.
    pub known: Option<Abs>,
    /// The last branch in which it was noted.
    pub noted: usize,
}

/// A note of a trail.
#[derive(Clone, Copy)]
pub enum Note {
    /// A branch was opened, in this one.
    Opened(usize),
    /// An entry was this before the branch changed it.
    Was(usize, Entry),
}
