//! The states of the reader.

/// What was seen of a text so far.
#[derive(Clone, Copy, Debug, PartialEq, Eq)]
pub(crate) struct Seen {
    /// Whether it is of version 2.
    pub(crate) sealed: bool,
    /// Whether a task came.
    pub(crate) tasked: bool,
}

/// What may come next in a certificate's text.
#[derive(Clone, Copy, Debug, PartialEq, Eq)]
pub(crate) enum Next<'c> {
    /// The first line of the text.
    First,
    /// A function, or what stands after the functions.
    Func {
        seen: Seen,
    },
    /// The digest of a function, which is `main` or another.
    Digest {
        main: bool,
        seen: Seen,
    },
    /// A parameter or the result of a function, which is `main` or another.
    Param {
        main: bool,
        seen: Seen,
    },
    /// A loop of at most the depth `deepest`, a variable of the loop before of at least the number `least`,
    /// another function, or what stands after the functions.
    Loop {
        main: bool,
        seen: Seen,
        deepest: u64,
        least: u64,
    },
    /// The bounds of the whole program, after the digest of the words outside bodies.
    Total,
    /// A line of the section `since`, while `left` of them are to come; and else a section whose name is after
    /// `since`, or the last line of the text.
    Section {
        since: &'c [u8],
        left: u32,
    },
    /// The last line of the text, in version 1.
    Last,
    /// Nothing.
    Over,
}

impl Next<'_> {
    ghost use Rattle.std.specs.Prelude.{◌≡◌};
    ghost use Rattle.p10_cert.specs.private.States.{is_free, is_over, next_of};

    /// Whether a line of a section has to come, whatever it says.
    pub(crate) fn is_free(self) -> bool
        ensures { result ≡ is_free (next_of self.entry) }
    {
        match self {
            Next::Section { left, .. } => left > 0,
            _ => false,
        }
    }

    /// Whether nothing may come.
    pub(crate) fn is_over(self) -> bool
        ensures { result ≡ is_over (next_of self.entry) }
    {
        match self {
            Next::Over => true,
            _ => false,
        }
    }
}
