//! Places between the lines of a certificate's text, and the next function from there.

ghost use Rattle.std.specs.Prelude.{◌≡◌, ◌+◌, ◌^◌, ◌<◌, ◌≤◌, true, Some, None, length, option_map, IfSome, IfOk, IfErr};

use crate::bytes::after;
use crate::line::Row;
use crate::next::step;
use crate::record::{BadLine, FuncRecord};
use crate::state::Next;
use p10_base::{Bounds, Digest};

/// A place between two lines: what may come next, what stands after it, and how many lines stand before it.
#[derive(Clone, Copy)]
pub(crate) struct Cursor<'c> {
    pub(crate) next: Next<'c>,
    pub(crate) rest: &'c [u8],
    pub(crate) lines: u64,
}

/// What comes next at a place between two functions.
pub(crate) enum Found<'c> {
    /// A function, and the place after it.
    Function(FuncRecord<'c>, Cursor<'c>),
    /// The end of the text.
    End(End<'c>),
}

/// What stands after the functions of a text that is a certificate's.
#[derive(Clone, Copy)]
pub(crate) struct End<'c> {
    /// The digest of the words outside bodies, in version 2.
    pub(crate) outside: Option<Digest>,
    /// The bounds of the whole program.
    pub(crate) total: Bounds,
    /// The lines after those of the bounds.
    pub(crate) sections: &'c [u8],
}

impl<'c> Cursor<'c> {
    ghost use Rattle.p10_cert.specs.declared.state.Seen.{Seen};
    ghost use Rattle.p10_cert.specs.private.Plain.{plain_line};
    ghost use Rattle.p10_cert.specs.Lines.{FuncHead, FuncLine};
    ghost use Rattle.p10_cert.specs.private.States.{First, Total, next_of};
    ghost use Rattle.p10_cert.specs.private.Steps.{step_at, line_in};
    ghost use Rattle.p10_cert.specs.private.Places.{IsBetween, Goes, Follows, Leads, Opens, FindsWrong, further_at, parameter_at, is_closing, is_begun, is_loop, is_param, is_start};
    ghost use Rattle.p10_cert.specs.private.Found.{place_of, EndsAt, BoundsAt, Has, Finds};

    /// The place before the first line.
    pub(crate) fn start(text: &'c [u8]) -> Cursor<'c>
        ensures next { next_of result.next ≡ First }
        ensures rest { result.rest.now ≡ text.now }
        ensures lines { result.lines ≡ 0 }
    {
        Cursor {
            next: Next::First,
            rest: text,
            lines: 0,
        }
    }

    /// The line that stands next, where a line of a section has to come or another, and what stands after it.
    #[tactic(auto, unfolding(crate::specs::private::Steps::line_in))]
    fn line(self) -> Option<(Row<'c>, &'c [u8])>
        ensures { option_map (λ x. (plain_line x.0, x.1.now)) result ≡ line_in (next_of self.entry.next) self.entry.rest.now }
    {
        if self.next.is_free() {
            Row::body(self.rest)
        } else {
            Row::read(self.rest)
        }
    }

    /// The line that comes next, where it may come, and the place after it.
    #[tactic(auto, unfolding(crate::specs::private::Steps::step_at))]
    fn step(self) -> Option<(Row<'c>, Cursor<'c>)>
        requires { self.lines + length self.rest.now < 2 ^ 64 }
        ensures exact { option_map (λ x. (plain_line x.0, next_of x.1.next, x.1.rest.now)) result ≡ step_at (next_of self.entry.next) self.entry.rest.now }
        ensures counted { IfSome result (λ x. x.1.lines ≡ self.entry.lines + 1) }
        ensures shorter { IfSome result (λ x. length x.1.rest.now < length self.entry.rest.now) }
        ensures few { IfSome result (λ x. x.1.lines + length x.1.rest.now ≤ self.entry.lines + length self.entry.rest.now) }
    {
        let (line, rest) = self.line()?;
        let next = step(self.next, line)?;
        let after = Cursor {
            next,
            rest,
            lines: self.lines + 1,
        };
        Some((line, after))
    }

    /// What comes next at a place between two functions, or at the beginning.
    pub(crate) fn find(self) -> Result<Found<'c>, BadLine>
        requires few { self.lines + length self.rest.now < 2 ^ 63 }
        requires start { is_start (next_of self.next) ≡ true }
        requires stops { further_at (next_of self.next) self.rest.now ≡ None }
        ensures { Finds (place_of self.entry) result }
    {
        let start = self.opened()?;
        match start.step() {
            Some((line, after)) => start.found(line, after),
            None => Err(start.bad()),
        }
    }

    /// What comes next at a place between two functions, where `line` comes, and after it `after`.
    fn found(self, line: Row<'c>, after: Cursor<'c>) -> Result<Found<'c>, BadLine>
        requires few { self.lines + length self.rest.now < 2 ^ 63 }
        requires fewer { after.lines + length after.rest.now < 2 ^ 63 }
        requires between { (seen : Seen) × IsBetween seen (next_of self.next) }
        requires stops { further_at (next_of self.next) self.rest.now ≡ None }
        requires step { step_at (next_of self.next) self.rest.now ≡ Some (plain_line line, next_of after.next, after.rest.now) }
        requires number { after.lines ≡ self.lines + 1 }
        ensures { Has (place_of self.entry) result }
    {
        match line {
            Row::Func(_) => self.function(after),
            Row::Total(total) => after.close(None, total),
            Row::Outside(digest) => after.bounds(digest),
            _ => Err(self.bad()),
        }
    }

    /// The place after the first line of the text, where this is the beginning, and else this place.
    fn opened(self) -> Result<Cursor<'c>, BadLine>
        requires few { self.lines + length self.rest.now < 2 ^ 63 }
        requires start { is_start (next_of self.next) ≡ true }
        requires stops { further_at (next_of self.next) self.rest.now ≡ None }
        ensures ok { IfOk result (λ start. Opens (place_of self.entry) (place_of start)) }
        ensures err { IfErr result (λ bad. FindsWrong (place_of self.entry) bad.line) }
        ensures few { IfOk result (λ start. start.lines + length start.rest.now ≤ self.entry.lines + length self.entry.rest.now) }
    {
        match self.next {
            Next::First => match self.step() {
                Some((_, after)) => Ok(after),
                None => Err(self.bad()),
            },
            _ => Ok(self),
        }
    }

    /// The function whose first line comes next, and after it comes `inside`.
    fn function(self, inside: Cursor<'c>) -> Result<Found<'c>, BadLine>
        requires few { inside.lines + length inside.rest.now < 2 ^ 63 }
        requires begun { (head : FuncHead) × (step_at (next_of self.next) self.rest.now ≡ Some (FuncLine head, next_of inside.next, inside.rest.now)) }
        requires number { inside.lines ≡ self.lines + 1 }
        ensures { Has (place_of self.entry) result }
    {
        let params = match inside.after_digest() {
            Ok(params) => params,
            Err(bad) => return Err(bad),
        };
        let result = params.after_parameters();
        let first = match result.further() {
            Some(first) => first,
            None => return Err(result.bad()),
        };
        let after = first.after_loops();
        let record = FuncRecord {
            text: &self.rest[..self.rest.len() - after.rest.len()],
            line: self.lines + 1,
        };
        Ok(Found::Function(record, after))
    }

    /// The place after the digest of a function whose first line is before this place, where one has to come.
    fn after_digest(self) -> Result<Cursor<'c>, BadLine>
        requires few { self.lines + length self.rest.now < 2 ^ 63 }
        requires begun { is_begun (next_of self.next) ≡ true }
        ensures leads { IfOk result (λ to. Leads (place_of self.entry) (place_of to)) }
        ensures param { IfOk result (λ to. is_param (next_of to.next) ≡ true) }
        ensures few { IfOk result (λ to. to.lines + length to.rest.now ≤ self.entry.lines + length self.entry.rest.now) }
        ensures wrong { IfErr result (λ bad. FindsWrong (place_of self.entry) bad.line) }
    {
        match self.next {
            Next::Digest { .. } => match self.step() {
                Some((_, after)) => Ok(after),
                None => Err(self.bad()),
            },
            _ => Ok(self),
        }
    }

    /// The end of the text after the digest of the words outside bodies, which is before this place.
    fn bounds(self, outside: Digest) -> Result<Found<'c>, BadLine>
        requires few { self.lines + length self.rest.now < 2 ^ 63 }
        requires total { next_of self.next ≡ Total }
        ensures end { IfOk result (λ found. BoundsAt (place_of self.entry) outside found) }
        ensures wrong { IfErr result (λ bad. FindsWrong (place_of self.entry) bad.line) }
    {
        match self.step() {
            Some((line, after)) => self.bounded(outside, line, after),
            None => Err(self.bad()),
        }
    }

    /// The same, where `line` comes next, and after it `after`.
    fn bounded(
        self,
        outside: Digest,
        line: Row<'c>,
        after: Cursor<'c>,
    ) -> Result<Found<'c>, BadLine>
        requires few { self.lines + length self.rest.now < 2 ^ 63 }
        requires fewer { after.lines + length after.rest.now < 2 ^ 63 }
        requires total { next_of self.next ≡ Total }
        requires step { step_at (next_of self.next) self.rest.now ≡ Some (plain_line line, next_of after.next, after.rest.now) }
        requires number { after.lines ≡ self.lines + 1 }
        ensures end { IfOk result (λ found. BoundsAt (place_of self.entry) outside found) }
        ensures wrong { IfErr result (λ bad. FindsWrong (place_of self.entry) bad.line) }
    {
        match line {
            Row::Total(total) => after.close(Some(outside), total),
            _ => Err(self.bad()),
        }
    }

    /// The end of the text after the bounds of the whole program, whose line is before this place.
    fn close(self, outside: Option<Digest>, total: Bounds) -> Result<Found<'c>, BadLine>
        requires few { self.lines + length self.rest.now < 2 ^ 63 }
        requires closing { is_closing (next_of self.next) ≡ true }
        ensures end { IfOk result (λ found. EndsAt (place_of self.entry) outside total found) }
        ensures wrong { IfErr result (λ bad. FindsWrong (place_of self.entry) bad.line) }
    {
        let place = self.after_lines();
        if !place.next.is_over() {
            return Err(place.bad());
        }
        if place.rest.is_empty() {
            Ok(Found::End(End {
                outside,
                total,
                sections: self.rest,
            }))
        } else {
            Err(place.bad())
        }
    }

    /// The place after all lines that may come after the bounds.
    fn after_lines(self) -> Cursor<'c>
        requires few { self.lines + length self.rest.now < 2 ^ 63 }
        ensures follows { Follows (place_of self.entry) (place_of result) }
        ensures few { result.lines + length result.rest.now ≤ self.entry.lines + length self.entry.rest.now }
        ensures stops { step_at (next_of result.next) result.rest.now ≡ None }
    {
        let mut place = self;
        while let Some((_, after)) = place.step() {
            place = after;
        }
        place
    }

    /// The number of the line that comes next.
    fn bad(self) -> BadLine
        requires { self.lines + length self.rest.now < 2 ^ 63 }
        ensures { result.line ≡ self.entry.lines + 1 }
    {
        BadLine {
            line: self.lines + 1,
        }
    }

    /// The place after the next line, where it is a parameter of a function that has begun.
    #[tactic(auto, unfolding(crate::specs::private::Places::parameter_at))]
    fn parameter(self) -> Option<Cursor<'c>>
        requires { self.lines + length self.rest.now < 2 ^ 64 }
        ensures goes { Goes (parameter_at (next_of self.entry.next) self.entry.rest.now) (place_of self.entry) (option_map place_of result) }
        ensures few { IfSome result (λ x. x.lines + length x.rest.now ≤ self.entry.lines + length self.entry.rest.now) }
    {
        let (_, after) = self.step()?;
        match after.next {
            Next::Param { .. } => Some(after),
            _ => None,
        }
    }

    /// The place after the next line, where it is one of a function that has begun, after its parameters.
    #[tactic(auto, unfolding(crate::specs::private::Places::further_at))]
    fn further(self) -> Option<Cursor<'c>>
        requires { self.lines + length self.rest.now < 2 ^ 64 }
        ensures goes { Goes (further_at (next_of self.entry.next) self.entry.rest.now) (place_of self.entry) (option_map place_of result) }
        ensures few { IfSome result (λ x. x.lines + length x.rest.now ≤ self.entry.lines + length self.entry.rest.now) }
    {
        // the first line of the next function is read with that function
        if self.begins_function() {
            return None;
        }
        let (_, after) = self.step()?;
        match after.next {
            Next::Loop { .. } => Some(after),
            _ => None,
        }
    }

    /// Whether a function begins here.
    fn begins_function(self) -> bool
        ensures { result ≡ true → further_at (next_of self.entry.next) self.entry.rest.now ≡ None }
    {
        match after(self.rest, b"func ") {
            Some(_) => true,
            None => false,
        }
    }

    /// The place after the parameters that come next.
    fn after_parameters(self) -> Cursor<'c>
        requires few { self.lines + length self.rest.now < 2 ^ 63 }
        requires begun { is_param (next_of self.next) ≡ true }
        ensures leads { Leads (place_of self.entry) (place_of result) }
        ensures few { result.lines + length result.rest.now ≤ self.entry.lines + length self.entry.rest.now }
        ensures stays { is_param (next_of result.next) ≡ true }
        ensures stops { parameter_at (next_of result.next) result.rest.now ≡ None }
    {
        let mut place = self;
        while let Some(after) = place.parameter() {
            place = after;
        }
        place
    }

    /// The place after the further lines of a function whose result came before.
    fn after_loops(self) -> Cursor<'c>
        requires few { self.lines + length self.rest.now < 2 ^ 63 }
        requires begun { is_loop (next_of self.next) ≡ true }
        ensures leads { Leads (place_of self.entry) (place_of result) }
        ensures few { result.lines + length result.rest.now ≤ self.entry.lines + length self.entry.rest.now }
        ensures stays { is_loop (next_of result.next) ≡ true }
        ensures stops { further_at (next_of result.next) result.rest.now ≡ None }
    {
        let mut place = self;
        while let Some(after) = place.further() {
            place = after;
        }
        place
    }
}
