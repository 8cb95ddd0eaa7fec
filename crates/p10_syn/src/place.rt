//! Places of trees.

ghost use Rattle.std.specs.Prelude.{◌≡◌};
ghost use Rattle.p10_syn.specs.Places.{nowhere as no_place};

use p10_base::{At, Span};

/// On which side of its operand `++` or `--` stands.
#[derive(Clone, Copy, Debug, PartialEq, Eq)]
pub enum Side {
    /// Before it: the new value counts (C99 6.5.3.1).
    Before,
    /// After it: the old value counts (C99 6.5.2.4).
    After,
}

/// The place of a tree whose place isn't set yet.
pub fn nowhere() -> At
    ensures { result ≡ no_place }
{
    At {
        first: 0,
        past: 0,
        span: Span {
            file: 0,
            start: 0,
            end: 0,
        },
    }
}
