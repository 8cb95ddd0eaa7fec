//! What a line is to the conditional in which it stands.

/// The part that a line has in a conditional (C99 6.10.1).
#[derive(Clone, Copy)]
pub enum Mark {
    /// `#if`, `#ifdef` or `#ifndef`.
    Opens,
    /// `#elif`.
    Elif,
    /// `#else`.
    Else,
    /// `#endif`.
    Closes,
    /// Any other directive, and text.
    Plain,
}
