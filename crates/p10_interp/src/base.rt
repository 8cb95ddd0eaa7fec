//! Where an open call stands among all.

use p10_core::Func;

/// An open call among all: its function, its depth, and where its variables and the objects that its blocks opened begin.
#[derive(Clone, Copy)]
pub struct Base<'p> {
    pub function: &'p Func<'p>,
    pub calls: u64,
    pub bytes: u128,
    pub held: usize,
    pub marks: usize,
}

/// How deep calls are nested: open calls, and the bytes of their frames.
#[derive(Clone, Copy, Debug)]
pub struct Depth {
    pub calls: u64,
    pub bytes: u128,
}
