//! What stands round a statement.

/// Whether a loop and a `switch` stand round a statement, and whether it stands at the top level of the block of a `switch`, where
/// labels may stand.
#[derive(Clone, Copy, Debug)]
pub struct Round {
    pub in_loop: bool,
    pub in_switch: bool,
    pub at_labels: bool,
}

impl Round {
    ghost use Rattle.std.specs.Prelude.{◌≡◌};
    ghost use Rattle.p10_elabs.specs.Statements.{in_nothing, inside, inside_loop, inside_switch, among_labels};

    /// Nothing stands round it.
    pub fn nothing() -> Round
        ensures { result ≡ in_nothing }
    {
        Round {
            in_loop: false,
            in_switch: false,
            at_labels: false,
        }
    }

    /// Inside of another statement.
    pub(crate) fn inside(self) -> Round
        ensures { result ≡ inside self }
    {
        Round {
            in_loop: self.in_loop,
            in_switch: self.in_switch,
            at_labels: false,
        }
    }

    /// Inside of a loop.
    pub(crate) fn inside_loop(self) -> Round
        ensures { result ≡ inside_loop self }
    {
        Round {
            in_loop: true,
            in_switch: self.in_switch,
            at_labels: false,
        }
    }

    /// Inside of a `switch`.
    pub(crate) fn inside_switch(self) -> Round
        ensures { result ≡ inside_switch self }
    {
        Round {
            in_loop: self.in_loop,
            in_switch: true,
            at_labels: false,
        }
    }

    /// At the top level of the block of a `switch`.
    pub(crate) fn among_labels(self) -> Round
        ensures { result ≡ among_labels self }
    {
        Round {
            in_loop: self.in_loop,
            in_switch: true,
            at_labels: true,
        }
    }
}
