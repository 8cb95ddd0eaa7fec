//! Lines and columns of places, counted on from one place to the next, so that all places of a file that come in order take one walk
//! over its text.

use p10_base::{Sources, Span};

/// A byte of a file, with its line and column, both from 1.
#[derive(Clone, Copy)]
pub struct Counted {
    /// The number of the file.
    pub file: u32,
    /// The byte, counted from 0.
    pub start: u32,
    pub line: u64,
    pub column: u64,
}

impl Counted {
    ghost use Rattle.std.specs.Prelude.{◌≡◌, ◌≤◌};
    ghost use Rattle.p10_base.specs.Gathered.{Gathered, text_of};
    ghost use Rattle.p10_base.specs.Places.{column_of, line_of};
    ghost use Rattle.p10_report.specs.private.Counted.{IsCounted};

    /// The beginning of a file.
    pub fn beginning(file: u32) -> Counted
        ensures file { result.file ≡ file }
        ensures start { result.start ≡ 0 }
        ensures counted { (g : Gathered) → IsCounted g result }
    {
        Counted {
            file,
            start: 0,
            line: 1,
            column: 1,
        }
    }

    /// The place `at`, counted on from this one where that stands before it in the same file, and else from the file's beginning.
    /// Past the end of a file it is that end, and where there is no such file the beginning of one.
    pub fn next(self, s: &Sources, at: Span) -> Counted
        requires { IsCounted s.now self }
        ensures line { result.line ≡ line_of (text_of s.now at.file) at.start }
        ensures column { result.column ≡ column_of (text_of s.now at.file) at.start }
        ensures counted { IsCounted s.now result }
    {
        if self.file == at.file && self.start <= at.start {
            self.advance(s, at.start)
        } else {
            Counted::beginning(at.file).advance(s, at.start)
        }
    }

    /// The byte `start` of the same file, which doesn't stand before this one.
    fn advance(self, s: &Sources, start: u32) -> Counted
        requires counted { IsCounted s.now self }
        requires before { self.start ≤ start }
        ensures file { result.file ≡ self.file }
        ensures start { result.start ≡ start }
        ensures counted { IsCounted s.now result }
    {
        let mut line = self.line;
        let mut column = self.column;
        if self.file < s.count() {
            let text = s.text(self.file);
            let mut place = self.start;
            while place < start && (place as usize) < text.len() {
                if text[place as usize] == b'\n' {
                    line += 1;
                    column = 1;
                } else {
                    column += 1;
                }
                place += 1;
            }
        }
        Counted {
            file: self.file,
            start,
            line,
            column,
        }
    }
}
