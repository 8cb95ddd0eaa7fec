//! What a reader of records gives.

ghost use Rattle.std.specs.Prelude.{◌≡◌, Bool, option_map};
ghost use Rattle.p10_cert.specs.Sealed.{bytes_of};
ghost use Rattle.p10_cert.specs.Statements.{Entry, IsEntry, entry_text};
ghost use Rattle.p10_cert.specs.private.Plain.{plain_line};
ghost use Rattle.p10_cert.specs.private.Seals.{line_digest, second_digest};

use crate::line::Row;
use p10_base::Digest;

/// The lines of one function of a certificate, and the number of the first.
#[derive(Clone, Copy, Debug, PartialEq, Eq)]
pub struct FuncRecord<'c> {
    /// The lines, with their LF: a slice of the certificate's bytes.
    pub text: &'c [u8],
    /// The number of the first line, counted from 1.
    pub line: u64,
}

impl FuncRecord<'_> {
    /// The digest of the function's words, which is there in version 2: of a record that the reader gave.
    pub fn digest(&self) -> Option<Digest>
        ensures { (e : Entry) (sealed : Bool) → IsEntry sealed e → self.now.text.now ≡ entry_text e → option_map bytes_of result ≡ e.digest }
    {
        second_digest(self.text)
    }
}

/// The digest that the second line of a function tells, if it tells one.
#[tactic(auto, unfolding(crate::specs::private::Seals::second_digest))]
fn second_digest(text: &[u8]) -> Option<Digest>
    ensures { option_map bytes_of result ≡ second_digest text.now }
{
    let (_, rest) = Row::read(text)?;
    let (line, _) = Row::read(rest)?;
    line_digest(line)
}

/// The digest that a line tells, if it tells one.
fn line_digest(line: Row<'_>) -> Option<Digest>
    ensures { option_map bytes_of result ≡ line_digest (plain_line line.entry) }
{
    match line {
        Row::Digest(digest) => Some(digest),
        _ => None,
    }
}

/// The first line of a text that no certificate has after the lines before it, counted from 1.
#[derive(Clone, Copy, Debug, PartialEq, Eq)]
pub struct BadLine {
    /// The line's number.
    pub line: u64,
}
