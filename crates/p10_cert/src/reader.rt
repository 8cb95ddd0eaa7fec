//! The reader of records: the text of one function after the other, without memory.

ghost use Rattle.std.specs.Prelude.{◌≡◌, map, option_map, IfOk};

use crate::cursor::{Cursor, End, Found};
use crate::record::{BadLine, FuncRecord};
use crate::sealed::Section;
use crate::sections::sections;
use p10_base::{Bounds, Digest, ListBuf};
use std::alloc::{AllocError, Global};
use std::marker::Model;

/// A reader of a certificate's functions, of either version.
#[derive(Drop)]
pub struct Records<'c> {
    text: &'c [u8],
    place: Cursor<'c>,
    end: Option<End<'c>>,
}

impl<'c> Model for Records<'c> {
    ghost use Rattle.p10_cert.specs.Records.{Progress};
    ghost use Rattle.std.specs.Prelude.{option_map};
    ghost use Rattle.p10_cert.specs.private.States.{next_of};
    ghost use Rattle.p10_cert.specs.private.Places.{IsPlace, entries_in};
    ghost use Rattle.p10_cert.specs.private.Found.{ending_of};

    ghost Value = { Progress };

    ghost view = { λ r. record { text = r.text.now; given = entries_in r.place.lines r.text.now; ending = option_map ending_of r.end } };

    ghost invariant = { λ r. IsPlace r.text.now (next_of r.place.next) r.place.rest.now r.place.lines };
}

impl<'c> Records<'c> {
    ghost use Rattle.p10_cert.specs.Records.{at_start, outside_in, GivesNext};
    ghost use Rattle.p10_cert.specs.Sealed.{bytes_of, section_of};

    /// The reader of the functions of a text, of which it has given none.
    pub(crate) fn new(bytes: &'c [u8]) -> Records<'c>
        ensures { result ≡ at_start bytes.now }
    {
        Records {
            text: bytes,
            place: Cursor::start(bytes),
            end: None,
        }
    }

    /// The next function's record; `None` where the text is a certificate's and all its functions were given.
    ///
    /// # Errors
    ///
    /// The number of the first line that no certificate has, where no record comes before it.
    pub fn next(&mut self) -> Result<Option<FuncRecord<'c>>, BadLine>
        ensures { GivesNext self.old self.new result }
    {
        match self.place.find() {
            Ok(found) => match found {
                Found::Function(record, after) => {
                    self.place = after;
                    Ok(Some(record))
                }
                Found::End(end) => {
                    self.end = Some(end);
                    Ok(None)
                }
            },
            Err(bad) => Err(bad),
        }
    }

    /// The bounds of the whole program, once `next` has answered `None`.
    pub fn total(&self) -> Option<Bounds>
        ensures { result ≡ option_map (λ e. e.total) self.now.ending }
    {
        match &self.end {
            Some(end) => Some(end.total),
            None => None,
        }
    }

    /// The digest of the words outside bodies, once `next` has answered `None`, in version 2.
    pub(crate) fn outside(&self) -> Option<Digest>
        ensures { option_map bytes_of result ≡ outside_in self.now.ending }
    {
        match &self.end {
            Some(end) => end.outside,
            None => None,
        }
    }

    /// The sections, once `next` has answered `None`: none in version 1.
    ///
    /// # Errors
    ///
    /// Out of memory.
    pub fn sections(&self, alloc: Global) -> Result<Option<ListBuf<Section>>, AllocError>
        ensures { IfOk result (λ found. option_map (λ s. map section_of s) found ≡ option_map (λ e. e.sections) self.now.ending) }
    {
        match &self.end {
            Some(end) => Ok(Some(sections(alloc, end.sections)?)),
            None => Ok(None),
        }
    }
}
