//! A range of whole numbers.

ghost use Rattle.std.specs.Prelude.{◌≤ℤ◌};

/// The whole numbers from `lo` to `hi`, both included; there is at least one.
#[derive(Clone, Copy, Debug, PartialEq, Eq)]
pub struct Range {
    /// The least number.
    pub lo: i128,
    /// The greatest number.
    pub hi: i128,
    ghost ordered: { lo ≤ℤ hi },
}
