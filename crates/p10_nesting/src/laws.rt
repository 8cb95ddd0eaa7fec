//! What the nesting of lists of words is, worked out by hand.

ghost use Rattle.std.specs.Prelude.{◌≡◌, ℕ, ◌+◌, All};
ghost use Rattle.p10_nesting.specs.Nesting.{nesting_of};
ghost use Rattle.p10_nesting.specs.Rows.{IsNested, returning, rows};

/// `int main(void) { return E; }`, where `E` is `0` in one pair of parentheses or more, has the nesting of
/// their number and 6; without parentheses it is 7.
pub fn parentheses_nest()
    ensures some { (n : ℕ) → nesting_of (returning (n + 1)) ≡ n + 7 }
    ensures none { nesting_of (returning 0) ≡ 7 }
{}

/// The rows of brackets, statements, commas and strings.
pub fn rows_nest()
    ensures { All IsNested rows }
{}
