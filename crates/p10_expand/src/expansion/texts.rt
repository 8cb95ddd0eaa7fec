//! The files of a program, cut into words and lines.

use p10_base::{Sources, Word};
use p10_direct::{Line, Lines};

/// The files of a program with their words and lines, by their numbers.
#[derive(Drop)]
pub struct Texts<'w, 's> {
    pub sources: &'s Sources,
    pub words: &'w [Vec<Word<'s>>],
    pub cuts: Vec<Lines<'w, 's>>,
}

/// A line of a file that is met.
#[derive(Clone, Copy)]
pub struct MetLine<'t, 'w, 's> {
    /// Its place among the lines of its file.
    pub place: usize,
    pub line: &'t Line<'w, 's>,
    /// Whether it is obeyed.
    pub obeyed: bool,
}

/// A file whose lines are expanded.
#[derive(Clone, Copy)]
pub struct File<'t, 'w, 's> {
    pub number: u32,
    /// Whether it is a built-in header.
    pub built_in: bool,
    pub cut: &'t Lines<'w, 's>,
}
