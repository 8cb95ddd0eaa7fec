//! The files gathered so far.

ghost use Rattle.std.specs.Prelude.{◌≡◌, ◌↔◌, ◌+◌, ◌<◌, ◌^◌, not, IfOk, IfErr, IfSome, IsTrue, OnOk, OnErr, string_bytes};
ghost use Rattle.p10_base.specs.Gathered.{count_of, with_file};
ghost use Rattle.p10_expand.specs.Finding.{name_at, is_header_place};

use crate::absent::Absent;
use crate::fault::Trouble;
use crate::place::{Include, Place};
use crate::reading::{Reading, read_text};
use p10_base::{ListBuf, Sources, WordPlace};
use std::alloc::{AllocError, Global};

/// What is known of a gathered file besides its name and its text.
#[derive(Drop)]
pub struct Known {
    /// Where it was found.
    pub place: Place,
    /// The number of includes in the shortest chain that leads to it from a root.
    pub depth: u32,
    /// Its include lines in their order.
    pub includes: ListBuf<Include>,
}

/// The files gathered so far, and the names of files that were found absent.
#[derive(Drop)]
pub struct Gathering {
    pub alloc: Global,
    pub sources: Sources,
    pub known: Vec<Known>,
    pub absent: Absent,
}

impl Gathering {
    ghost use Rattle.std.specs.Prelude.{[], length, bytes_eq, slice_index_or, IfNone};
    ghost use Rattle.std.specs.List.{list_any};
    ghost use Rattle.p10_base.specs.Gathered.{nothing_gathered};
    ghost use Rattle.p10_expand.specs.Gathering.{IsAt, IsNew, known_at, present};
    ghost use Rattle.p10_expand.specs.Includes.{no_include};
    ghost use Rattle.p10_expand.specs.private.Standing.{AddsFile, FailsToAdd, Links};

    /// Nothing gathered.
    pub fn new(alloc: Global) -> Gathering
        ensures sources { result.sources ≡ nothing_gathered }
        ensures known { result.known.items ≡ [] }
        ensures absent { result.absent ≡ [] }
    {
        Gathering {
            alloc,
            sources: Sources::new(alloc),
            known: Vec::new(alloc),
            absent: Absent::new(alloc),
        }
    }

    /// The number of the gathered file that was found at a place.
    pub fn number_of(&self, place: &Place) -> Option<u32>
        requires { length self.now.known.items ≡ count_of self.now.sources }
        ensures found { IfSome result (IsAt self.now.known.items place.now) }
        ensures new { IfNone result (IsNew self.now.known.items place.now) }
    {
        for number in 0..self.sources.count() {
            if same_place(&self.known[number as usize].place, place) {
                return Some(number);
            }
        }
        None
    }

    /// How many of the files are no built-in headers.
    pub fn present(&self) -> usize
        ensures { result ≡ present self.now.known.items }
    {
        let mut count = 0;
        for known in &self.known {
            if is_file(&known.place) {
                count += 1;
            }
        }
        count
    }

    /// What is known of a file.
    pub fn known_of(&self, file: u32) -> &Known
        requires same { length self.now.known.items ≡ count_of self.now.sources }
        requires there { file < count_of self.now.sources }
        ensures { result.now ≡ known_at self.now.known.items file }
    {
        &self.known[file as usize]
    }

    /// An include line of a file, by its place among that file's include lines.
    pub fn include_at(&self, file: u32, at: usize) -> &Include
        requires same { length self.now.known.items ≡ count_of self.now.sources }
        requires there { file < count_of self.now.sources }
        requires at_there { at < length (known_at self.now.known.items file).includes }
        ensures { result.now ≡ slice_index_or (known_at self.now.known.items file).includes at no_include }
    {
        &self.known_of(file).includes.as_slice()[at]
    }

    /// Links an include line of a file, by its place among that file's include lines, to the file `to`,
    /// unless it is linked.
    pub fn link(&mut self, file: u32, at: usize, to: u32) -> Result<(), AllocError>
        requires same { length self.old.known.items ≡ count_of self.old.sources }
        requires there { file < count_of self.old.sources }
        requires at_there { at < length (known_at self.old.known.items file).includes }
        requires to_there { to < count_of self.old.sources }
        ensures { OnOk result (Links self.old self.new file (slice_index_or (known_at self.old.known.items file).includes at no_include) to) }
    {
        let include = &self.known[file as usize].includes.as_slice()[at];
        let name = include.name.as_slice();
        if self.sources.candidate(file, name, include.angle).is_none() {
            self.sources.link(file, name, include.angle, to)?;
        }
        Ok(())
    }

    /// Whether the file with this name was found absent.
    pub fn lacks(&self, name: &str) -> bool
        ensures { result ≡ list_any (λ other. bytes_eq other name.now) self.now.absent }
    {
        self.absent.has(name)
    }

    /// Gathers one more file, which has this name, as a built-in header or not: cuts its text into words and
    /// reads its include lines. A refused file is gathered without words, so that the refusal has its place.
    pub fn add(
        &mut self,
        place: Place,
        name: String,
        text: Vec<u8>,
        depth: u32,
    ) -> Result<u32, Trouble>
        requires { string_bytes name ≡ name_at place }
        ensures added { IfOk result (AddsFile self.old self.new place depth text.items) }
        ensures refused { IfErr result (FailsToAdd self.old self.new place text.items) }
        ensures absent { self.new.absent ≡ self.old.absent }
    {
        let number = self.sources.count();
        if number >= u32::MAX - 1 {
            return Err(Trouble::Memory);
        }
        match read_text(self.alloc, number, &text) {
            Ok(Reading { words, includes }) => {
                put(&mut self.sources, &place, name, text, words)?;
                self.known.push(Known {
                    place,
                    depth,
                    includes: ListBuf::of(includes),
                })?;
                Ok(number)
            }
            Err(Trouble::Refused(refusal)) => {
                put(&mut self.sources, &place, name, text, Vec::new(self.alloc))?;
                Err(Trouble::Refused(refusal))
            }
            Err(trouble) => Err(trouble),
        }
    }
}

/// Puts a file with words at these places after the others; one at the place of a built-in header is marked as one.
fn put(
    sources: &mut Sources,
    place: &Place,
    name: String,
    text: Vec<u8>,
    words: Vec<WordPlace>,
) -> Result<u32, AllocError>
    requires { count_of sources.old + 1 < 2 ^ 32 }
    ensures ok { OnOk result (sources.new ≡ with_file sources.old (string_bytes name) text.items (is_header_place place.now) words.items) }
    ensures err { OnErr result (sources.new ≡ sources.old) }
{
    match place {
        Place::File(_) => sources.push(name, text, words),
        Place::Header(_) => sources.push_built_in(name, text, words),
    }
}

/// Whether two places are the same.
fn same_place(left: &Place, right: &Place) -> bool
    ensures { IsTrue result ↔ left.now ≡ right.now }
{
    match (left, right) {
        (Place::File(left), Place::File(right)) => left.as_str() == right.as_str(),
        (Place::Header(left), Place::Header(right)) => left.as_slice() == right.as_slice(),
        _ => false,
    }
}

/// Whether a place is that of no built-in header.
fn is_file(place: &Place) -> bool
    ensures { result ≡ not (is_header_place place.now) }
{
    matches!(place, Place::File(_))
}
