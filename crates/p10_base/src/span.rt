//! Places in source files.

/// A run of bytes of one file, from byte `start` up to but not including byte `end`.
#[derive(Clone, Copy, Debug, PartialEq, Eq, PartialOrd, Ord)]
pub struct Span {
    /// The number of the file among the gathered files.
    pub file: u32,
    /// The first byte, counted from 0.
    pub start: u32,
    /// The byte past the last.
    pub end: u32,
}

impl Span {
    ghost use Rattle.std.specs.Prelude.{◌≡◌};
    ghost use Rattle.p10_base.specs.Words.{span_to};

    /// The run from the first byte of this one to the end of `last`, in this one's file.
    pub fn to(self, last: Span) -> Span
        ensures { result ≡ span_to self last }
    {
        Span {
            end: last.end,
            ..self
        }
    }
}
