//! The lines of a certificate, one by one: what each says, whatever stands before it.
//!
//! A line's first words say which line it is. Each reader takes what stands after these, and gives what the
//! line says and what stands after its LF, or nothing where this is no line of a certificate.

ghost use Rattle.std.specs.Prelude.{◌≡◌, option_copied, option_map};
ghost use Rattle.p10_range.specs.Ranges.{interval_of};
ghost use Rattle.p10_cert.specs.Claims.{value_of};
ghost use Rattle.p10_cert.specs.private.Plain.{plain_section};
ghost use Rattle.p10_cert.specs.private.Reading.{after_first, after_total, line_at, inner_at, outer_at, sealed_at, func_at, value_at, ends_at, param_at, result_at, bound_at, rank_at, loop_at, task_at, var_at, total_at, function_digest_at, outside_at, section_start_at, section_at, body_text_at, body_at};

use crate::bytes::{after, after_body_bytes, name, section_name};
use crate::claims::{Rank, ValueClaim, VarRange};
use crate::hex::digest;
use crate::numbers::{GREATEST_COUNT, GREATEST_INDEX, labelled, number, signed};
use p10_base::{Bounds, Digest};
use p10_range::Range;

/// A line of a certificate.
#[derive(Clone, Copy)]
pub(crate) enum Row<'c> {
    /// The first line of the text.
    First,
    /// The first line of a function.
    Func(Head<'c>),
    /// A parameter.
    Param(ValueClaim),
    /// The result.
    Result(ValueClaim),
    /// The first line of a loop.
    Loop(LoopStart),
    /// A variable of a loop.
    Var(VarRange),
    /// The bounds of the whole program.
    Total(Bounds),
    /// The last line of the text.
    Last,
    /// The first line of a text of version 2.
    Sealed,
    /// The digest of a function's words.
    Digest(Digest),
    /// The digest of the words outside bodies.
    Outside(Digest),
    /// The first line of a section.
    Section(SectionStart<'c>),
    /// A line of a section.
    Body(&'c [u8]),
}

/// What the first line of a function says.
#[derive(Clone, Copy)]
pub(crate) struct Head<'c> {
    pub(crate) name: &'c [u8],
    pub(crate) rank: u32,
    pub(crate) steps: u64,
    pub(crate) calls: u64,
    pub(crate) bytes: u64,
    pub(crate) alloc: bool,
}

/// What the first line of a loop says.
#[derive(Clone, Copy)]
pub(crate) struct LoopStart {
    pub(crate) depth: u32,
    pub(crate) rank: Rank,
    pub(crate) turns: u64,
}

/// What the first line of a section says.
#[derive(Clone, Copy)]
pub(crate) struct SectionStart<'c> {
    pub(crate) name: &'c [u8],
    pub(crate) count: u32,
}

impl<'c> Row<'c> {
    ghost use Rattle.p10_cert.specs.private.Plain.{plain_line};

    /// The line that the text begins with, which is none of a section, and what stands after it.
    #[tactic(auto, unfolding(crate::specs::private::Reading::line_at))]
    pub(crate) fn read(text: &'c [u8]) -> Option<(Row<'c>, &'c [u8])>
        ensures { option_map (λ x. (plain_line x.0, x.1.now)) result ≡ line_at text.now }
    {
        if let Some(found) = Row::inner(text) {
            return Some(found);
        }
        Row::outer(text)
    }

    /// A line of a function but its first.
    #[tactic(auto, unfolding(crate::specs::private::Reading::inner_at))]
    fn inner(text: &'c [u8]) -> Option<(Row<'c>, &'c [u8])>
        ensures { option_map (λ x. (plain_line x.0, x.1.now)) result ≡ inner_at text.now }
    {
        if let Some(rest) = after(text, b"var ") {
            return Row::var(rest);
        }
        if let Some(rest) = after(text, b"loop ") {
            return Row::loops(rest);
        }
        if let Some(rest) = after(text, b"task steps ") {
            return Row::task(rest);
        }
        if let Some(rest) = after(text, b"param ") {
            return Row::param(rest);
        }
        if let Some(rest) = after(text, b"result ") {
            return Row::result(rest);
        }
        None
    }

    /// A line that stands in no function, or begins one.
    #[tactic(auto, unfolding(crate::specs::private::Reading::outer_at))]
    fn outer(text: &'c [u8]) -> Option<(Row<'c>, &'c [u8])>
        ensures { option_map (λ x. (plain_line x.0, x.1.now)) result ≡ outer_at text.now }
    {
        if let Some(rest) = after(text, b"func ") {
            return Row::func(rest);
        }
        if let Some(rest) = after_first(text) {
            return Some((Row::First, rest));
        }
        if let Some(rest) = after_total(text) {
            return Row::total(rest);
        }
        if let Some(rest) = after(text, b"end\n") {
            return Some((Row::Last, rest));
        }
        Row::sealed(text)
    }

    /// A line of version 2 alone, but those of a section.
    #[tactic(auto, unfolding(crate::specs::private::Reading::sealed_at))]
    fn sealed(text: &'c [u8]) -> Option<(Row<'c>, &'c [u8])>
        ensures { option_map (λ x. (plain_line x.0, x.1.now)) result ≡ sealed_at text.now }
    {
        if let Some(rest) = after(text, b"p10cert 2\n") {
            return Some((Row::Sealed, rest));
        }
        if let Some(rest) = after(text, b"digest ") {
            return Row::digest(rest);
        }
        if let Some(rest) = after(text, b"outside ") {
            return Row::outside(rest);
        }
        if let Some(rest) = after(text, b"section ") {
            return Row::section(rest);
        }
        None
    }

    /// The digest of a function's words, after the first word of its line.
    #[tactic(auto, unfolding(crate::specs::private::Reading::function_digest_at))]
    fn digest(text: &'c [u8]) -> Option<(Row<'c>, &'c [u8])>
        ensures { option_map (λ x. (plain_line x.0, x.1.now)) result ≡ function_digest_at text.now }
    {
        let (found, rest) = digest(text)?;
        Some((Row::Digest(found), rest))
    }

    /// The digest of the words outside bodies, after the first word of its line.
    #[tactic(auto, unfolding(crate::specs::private::Reading::outside_at))]
    fn outside(text: &'c [u8]) -> Option<(Row<'c>, &'c [u8])>
        ensures { option_map (λ x. (plain_line x.0, x.1.now)) result ≡ outside_at text.now }
    {
        let (found, rest) = digest(text)?;
        Some((Row::Outside(found), rest))
    }

    /// The first line of a section, after its first word.
    #[tactic(auto, unfolding(crate::specs::private::Reading::section_at))]
    fn section(text: &'c [u8]) -> Option<(Row<'c>, &'c [u8])>
        ensures { option_map (λ x. (plain_line x.0, x.1.now)) result ≡ section_at text.now }
    {
        let (start, rest) = section_start(text)?;
        Some((Row::Section(start), rest))
    }

    /// A line of a section.
    #[tactic(auto, unfolding(crate::specs::private::Reading::body_at))]
    pub(crate) fn body(text: &'c [u8]) -> Option<(Row<'c>, &'c [u8])>
        ensures { option_map (λ x. (plain_line x.0, x.1.now)) result ≡ body_at text.now }
    {
        let (bytes, rest) = body_text(text)?;
        Some((Row::Body(bytes), rest))
    }

    /// The first line of a function, after its first word.
    #[tactic(auto, unfolding(crate::specs::private::Reading::func_at))]
    fn func(text: &'c [u8]) -> Option<(Row<'c>, &'c [u8])>
        ensures { option_map (λ x. (plain_line x.0, x.1.now)) result ≡ func_at text.now }
    {
        let (name, rest) = name(text)?;
        let (rank, rest) = labelled(rest, b" rank ", GREATEST_INDEX)?;
        let (steps, rest) = labelled(rest, b" steps ", GREATEST_COUNT)?;
        let (calls, rest) = labelled(rest, b" calls ", GREATEST_COUNT)?;
        let (bytes, rest) = labelled(rest, b" bytes ", GREATEST_COUNT)?;
        let (alloc, rest) = labelled(rest, b" alloc ", 1)?;
        let rest = after(rest, b"\n")?;
        let head = Head {
            name,
            rank: rank as u32,
            steps: steps as u64,
            calls: calls as u64,
            bytes: bytes as u64,
            alloc: alloc == 1,
        };
        Some((Row::Func(head), rest))
    }

    /// A parameter, after the first word of its line.
    #[tactic(auto, unfolding(crate::specs::private::Reading::param_at))]
    fn param(text: &'c [u8]) -> Option<(Row<'c>, &'c [u8])>
        ensures { option_map (λ x. (plain_line x.0, x.1.now)) result ≡ param_at text.now }
    {
        let (value, rest) = value(text)?;
        let rest = after(rest, b"\n")?;
        match value {
            ValueClaim::Void => None,
            _ => Some((Row::Param(value), rest)),
        }
    }

    /// The result of a function, after the first word of its line.
    #[tactic(auto, unfolding(crate::specs::private::Reading::result_at))]
    fn result(text: &'c [u8]) -> Option<(Row<'c>, &'c [u8])>
        ensures { option_map (λ x. (plain_line x.0, x.1.now)) result ≡ result_at text.now }
    {
        let (value, rest) = value(text)?;
        let rest = after(rest, b"\n")?;
        Some((Row::Result(value), rest))
    }

    /// The first line of a loop, after its first word.
    #[tactic(auto, unfolding(crate::specs::private::Reading::loop_at))]
    fn loops(text: &'c [u8]) -> Option<(Row<'c>, &'c [u8])>
        ensures { option_map (λ x. (plain_line x.0, x.1.now)) result ≡ loop_at text.now }
    {
        let (depth, rest) = number(text, GREATEST_INDEX)?;
        let (rank, rest) = rank(rest)?;
        let (turns, rest) = labelled(rest, b" turns ", GREATEST_COUNT)?;
        let rest = after(rest, b"\n")?;
        let start = LoopStart {
            depth: depth as u32,
            rank,
            turns: turns as u64,
        };
        Some((Row::Loop(start), rest))
    }

    /// The line of the task loop, after its first words.
    #[tactic(auto, unfolding(crate::specs::private::Reading::task_at))]
    fn task(text: &'c [u8]) -> Option<(Row<'c>, &'c [u8])>
        ensures { option_map (λ x. (plain_line x.0, x.1.now)) result ≡ task_at text.now }
    {
        let (steps, rest) = number(text, GREATEST_COUNT)?;
        let rest = after(rest, b"\n")?;
        let start = LoopStart {
            depth: 0,
            rank: Rank::Task,
            turns: steps as u64,
        };
        Some((Row::Loop(start), rest))
    }

    /// A variable of a loop, after the first word of its line.
    #[tactic(auto, unfolding(crate::specs::private::Reading::var_at))]
    fn var(text: &'c [u8]) -> Option<(Row<'c>, &'c [u8])>
        ensures { option_map (λ x. (plain_line x.0, x.1.now)) result ≡ var_at text.now }
    {
        let (var, rest) = number(text, GREATEST_INDEX)?;
        let rest = after(rest, b" ")?;
        let (range, rest) = ends(rest)?;
        let rest = after(rest, b"\n")?;
        let found = VarRange {
            var: var as u32,
            range,
        };
        Some((Row::Var(found), rest))
    }

    /// The bounds of the whole program, after the first words of their line.
    #[tactic(auto, unfolding(crate::specs::private::Reading::total_at))]
    fn total(text: &'c [u8]) -> Option<(Row<'c>, &'c [u8])>
        ensures { option_map (λ x. (plain_line x.0, x.1.now)) result ≡ total_at text.now }
    {
        let (prefix, rest) = number(text, GREATEST_COUNT)?;
        let (turn, rest) = labelled(rest, b" turn ", GREATEST_COUNT)?;
        let (calls, rest) = labelled(rest, b" calls ", GREATEST_COUNT)?;
        let (bytes, rest) = labelled(rest, b" bytes ", GREATEST_COUNT)?;
        let rest = after(rest, b"\n")?;
        let total = Bounds {
            prefix: prefix as u64,
            turn: turn as u64,
            calls: calls as u64,
            bytes: bytes as u64,
        };
        Some((Row::Total(total), rest))
    }
}

/// What stands after the first line of the text.
#[tactic(auto, unfolding(crate::specs::private::Reading::after_first))]
fn after_first(text: &[u8]) -> Option<&[u8]>
    ensures { option_copied result ≡ after_first text.now }
{
    after(text, b"p10cert 1\n")
}

/// What stands after the first words of the line of the whole program.
#[tactic(auto, unfolding(crate::specs::private::Reading::after_total))]
fn after_total(text: &[u8]) -> Option<&[u8]>
    ensures { option_copied result ≡ after_total text.now }
{
    after(text, b"total prefix ")
}

/// What is claimed of a value.
#[tactic(auto, unfolding(crate::specs::private::Reading::value_at))]
fn value(text: &[u8]) -> Option<(ValueClaim, &[u8])>
    ensures { option_map (λ x. (value_of x.0, x.1.now)) result ≡ value_at text.now }
{
    if let Some(rest) = after(text, b"*") {
        return Some((ValueClaim::Pointer, rest));
    }
    if let Some(rest) = after(text, b"void") {
        return Some((ValueClaim::Void, rest));
    }
    let (range, rest) = ends(text)?;
    Some((ValueClaim::Ints(range), rest))
}

/// The ends of a range that has a number.
#[tactic(auto, unfolding(crate::specs::private::Reading::ends_at))]
fn ends(text: &[u8]) -> Option<(Range, &[u8])>
    ensures { option_map (λ x. (interval_of x.0, x.1.now)) result ≡ ends_at text.now }
{
    let (lo, rest) = signed(text)?;
    let (hi, rest) = signed(after(rest, b" ")?)?;
    if lo <= hi {
        Some((Range { lo, hi }, rest))
    } else {
        None
    }
}

/// Why a loop ends, after its depth.
#[tactic(auto, unfolding(crate::specs::private::Reading::rank_at))]
fn rank(text: &[u8]) -> Option<(Rank, &[u8])>
    ensures { option_map (λ x. (x.0, x.1.now)) result ≡ rank_at text.now }
{
    if let Some(rest) = after(text, b" up ") {
        let (var, bound, rest) = bound(rest)?;
        return Some((Rank::Up { var, bound }, rest));
    }
    if let Some(rest) = after(text, b" down ") {
        let (var, bound, rest) = bound(rest)?;
        return Some((Rank::Down { var, bound }, rest));
    }
    Some((Rank::One, after(text, b" one")?))
}

/// A variable and what it is compared with.
#[tactic(auto, unfolding(crate::specs::private::Reading::bound_at))]
fn bound(text: &[u8]) -> Option<(u32, i128, &[u8])>
    ensures { option_map (λ x. (x.0, x.1, x.2.now)) result ≡ bound_at text.now }
{
    let (var, rest) = number(text, GREATEST_INDEX)?;
    let (bound, rest) = signed(after(rest, b" ")?)?;
    Some((var as u32, bound, rest))
}

/// What the first line of a section says, after its first word.
#[tactic(auto, unfolding(crate::specs::private::Reading::section_start_at))]
pub(crate) fn section_start(text: &[u8]) -> Option<(SectionStart<'_>, &[u8])>
    ensures { option_map (λ x. (plain_section x.0, x.1.now)) result ≡ section_start_at text.now }
{
    let (name, rest) = section_name(text)?;
    let (count, rest) = labelled(rest, b" ", GREATEST_INDEX)?;
    let rest = after(rest, b"\n")?;
    let start = SectionStart {
        name,
        count: count as u32,
    };
    Some((start, rest))
}

/// What a line of a section says.
#[tactic(auto, unfolding(crate::specs::private::Reading::body_text_at))]
pub(crate) fn body_text(text: &[u8]) -> Option<(&[u8], &[u8])>
    ensures { option_map (λ x. (x.0.now, x.1.now)) result ≡ body_text_at text.now }
{
    let left = after_body_bytes(text);
    let rest = after(left, b"\n")?;
    Some((&text[..text.len() - left.len()], rest))
}
