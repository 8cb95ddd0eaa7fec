//! Lines of the section, one by one.

ghost use Rattle.std.specs.Prelude.{◌≡◌};
ghost use Rattle.std.specs.Option.{option_map};
ghost use Rattle.p10_diff_evidence.specs.private.Reading.{line_by, at_end, line_at, rank_at, fact_at};

use p10_cert::{GREATEST_INDEX, after, labelled, signed};

/// What a line says.
#[derive(Clone, Copy)]
pub(crate) enum Line {
    /// A loop, by the numbers of its function and of itself; the variables below and above, and the number that is added.
    Rank(u32, u32, u32, u32, i128),
    /// Of two variables, the first is greater than the second by at most a number.
    Fact(u32, u32, i128),
}

/// A line of the section, or nothing where it has another form.
pub(crate) fn read_line(text: &[u8]) -> Option<Line>
    ensures { option_map line_by result ≡ line_at text.now }
{
    match rank(text) {
        Some(found) => Some(found),
        None => fact(text),
    }
}

/// The line of a rank.
#[tactic(auto, unfolding(crate::specs::private::Reading::rank_at))]
fn rank(text: &[u8]) -> Option<Line>
    ensures { option_map line_by result ≡ rank_at text.now }
{
    let (function, rest) = labelled(text, b"rank ", GREATEST_INDEX)?;
    let (at, rest) = labelled(rest, b" ", GREATEST_INDEX)?;
    let (below, rest) = labelled(rest, b" ", GREATEST_INDEX)?;
    let (above, rest) = labelled(rest, b" ", GREATEST_INDEX)?;
    let (more, rest) = signed(after(rest, b" ")?)?;
    let found = Line::Rank(function as u32, at as u32, below as u32, above as u32, more);
    at_end(found, rest)
}

/// The line of a fact.
#[tactic(auto, unfolding(crate::specs::private::Reading::fact_at))]
fn fact(text: &[u8]) -> Option<Line>
    ensures { option_map line_by result ≡ fact_at text.now }
{
    let (greater, rest) = labelled(text, b"fact ", GREATEST_INDEX)?;
    let (lesser, rest) = labelled(rest, b" ", GREATEST_INDEX)?;
    let (by, rest) = signed(after(rest, b" ")?)?;
    at_end(Line::Fact(greater as u32, lesser as u32, by), rest)
}

/// What a line says, if nothing is left of it.
fn at_end(found: Line, rest: &[u8]) -> Option<Line>
    ensures { option_map line_by result ≡ at_end (line_by found) rest.now }
{
    match rest {
        [] => Some(found),
        [_, ..] => None,
    }
}
