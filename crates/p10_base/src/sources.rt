//! The gathered source files of a program: their names, bytes and words, the roots, and which file each
//! include line stands for.

use crate::{ListBuf, Span, TextBuf, WordPlace};
use std::alloc::{AllocError, Global};
use std::marker::Model;

/// The link of an include line: the file that it stands for.
#[derive(Debug, Drop)]
struct Link {
    /// The text between the quotes or the angle brackets.
    name: ListBuf<u8>,
    /// Whether the name stands between angle brackets.
    angle: bool,
    /// The number of the file.
    to: u32,
}

/// One gathered file. The links of its include lines stand with it, so that a look-up reads no
/// others.
#[derive(Debug, Drop)]
struct SourceFile {
    name: TextBuf,
    text: ListBuf<u8>,
    /// Whether it was gathered as a built-in header.
    built_in: bool,
    words: ListBuf<WordPlace>,
    links: ListBuf<Link>,
}

/// The gathered source files of a program.
///
/// A file has the number of files that were gathered before it. Contracts see the files in the
/// order of their numbers and the roots in their order (`Gathered`).
#[derive(Debug, Drop)]
pub struct Sources {
    alloc: Global,
    files: Vec<SourceFile>,
    roots: Vec<u32>,
}

impl Model for Sources {
    ghost use Rattle.p10_base.specs.Gathered.{Gathered, IsWhole};

    ghost Value = { Gathered };

    ghost view = { λ s. record { files = s.files.items; roots = s.roots.items } };

    ghost invariant = { λ s. IsWhole (record { files = s.files.items; roots = s.roots.items }) };
}

impl Sources {
    ghost use Rattle.std.specs.Prelude.{◌≡◌, ◌+◌, ◌<◌, ◌^◌, false, true, None, Some, length, OnOk, OnErr, IfOk, IfSome};
    ghost use Rattle.std.specs.String.{string_bytes};
    ghost use Rattle.p10_base.specs.Gathered.{LiesIn, candidate_of, count_of, name_of, nothing_gathered, word_places_of, root_count, root_of, is_built_in, text_of, with_file, with_link, with_root};
    ghost use Rattle.p10_base.specs.Places.{column_of, line_of};

    /// No files and no roots.
    pub fn new(alloc: Global) -> Sources
        ensures { result ≡ nothing_gathered }
    {
        Sources {
            alloc,
            files: Vec::new(alloc),
            roots: Vec::new(alloc),
        }
    }

    /// How many files there are.
    pub fn count(&self) -> u32
        ensures { result ≡ count_of self.now }
    {
        self.files.len() as u32
    }

    /// How many roots there are.
    pub fn roots(&self) -> u32
        ensures { result ≡ root_count self.now }
    {
        self.roots.len() as u32
    }

    /// The name of the file with this number, as it was given or as an include line made it.
    pub fn name(&self, file: u32) -> &str
        requires { file < count_of self.now }
        ensures { result.now ≡ name_of self.now file }
    {
        self.files[file as usize].name.as_str()
    }

    /// The bytes of the file with this number.
    pub fn text(&self, file: u32) -> &[u8]
        requires { file < count_of self.now }
        ensures { result.now ≡ text_of self.now file }
    {
        self.files[file as usize].text.as_slice()
    }

    /// Where the words of the file with this number stand, as they were put with it.
    pub fn words(&self, file: u32) -> &[WordPlace]
        requires { file < count_of self.now }
        ensures { result.now ≡ word_places_of self.now file }
    {
        self.files[file as usize].words.as_slice()
    }

    /// Whether the file with this number was gathered as a built-in header.
    pub fn is_built_in(&self, file: u32) -> bool
        requires { file < count_of self.now }
        ensures { result ≡ is_built_in self.now file }
    {
        self.files[file as usize].built_in
    }

    /// The number of the file that is root `i`, counted from 0.
    pub fn root(&self, i: u32) -> u32
        requires { i < root_count self.now }
        ensures value { result ≡ root_of self.now i }
        ensures held { result < count_of self.now }
    {
        self.roots[i as usize]
    }

    /// The line and the column of the byte `at.start`, both from 1. Lines end with LF, and columns
    /// count bytes.
    pub fn line_col(&self, at: Span) -> (u64, u64)
        requires { LiesIn self.now at }
        ensures line { result.0 ≡ line_of (text_of self.now at.file) at.start }
        ensures column { result.1 ≡ column_of (text_of self.now at.file) at.start }
    {
        place_after(&self.text(at.file)[..at.start as usize])
    }

    /// The gathered file for which the include of `name` in the file `from` stands, between angle
    /// brackets or, where `angle` is false, between quotes (C99 6.10.2). `None` where no file is
    /// linked for that include.
    pub fn candidate(&self, from: u32, name: &[u8], angle: bool) -> Option<u32>
        ensures value { result ≡ candidate_of self.now from name.now angle }
        ensures held { IfSome result (λ file. file < count_of self.now) }
    {
        let file = self.files.get(from as usize)?;
        target(file.links.as_slice(), name, angle)
    }

    /// Puts a file with words at these places after the others, without links, and gives its number. Out of
    /// memory, nothing is put.
    pub fn push(
        &mut self,
        name: String,
        text: Vec<u8>,
        words: Vec<WordPlace>,
    ) -> Result<u32, AllocError>
        requires { count_of self.old + 1 < 2 ^ 32 }
        ensures number { IfOk result (λ number. number ≡ count_of self.old) }
        ensures ok { OnOk result (self.new ≡ with_file self.old (string_bytes name) text.items false words.items) }
        ensures err { OnErr result (self.new ≡ self.old) }
    {
        self.put(name, text, false, words)
    }

    /// Puts a built-in header with words at these places after the files, without links, and gives its number.
    /// Out of memory, nothing is put.
    pub fn push_built_in(
        &mut self,
        name: String,
        text: Vec<u8>,
        words: Vec<WordPlace>,
    ) -> Result<u32, AllocError>
        requires { count_of self.old + 1 < 2 ^ 32 }
        ensures number { IfOk result (λ number. number ≡ count_of self.old) }
        ensures ok { OnOk result (self.new ≡ with_file self.old (string_bytes name) text.items true words.items) }
        ensures err { OnErr result (self.new ≡ self.old) }
    {
        self.put(name, text, true, words)
    }

    /// Puts a file, or a built-in header, after the others.
    fn put(
        &mut self,
        name: String,
        text: Vec<u8>,
        built_in: bool,
        words: Vec<WordPlace>,
    ) -> Result<u32, AllocError>
        requires { count_of self.old + 1 < 2 ^ 32 }
        ensures number { IfOk result (λ number. number ≡ count_of self.old) }
        ensures ok { OnOk result (self.new ≡ with_file self.old (string_bytes name) text.items built_in words.items) }
        ensures err { OnErr result (self.new ≡ self.old) }
    {
        let number = self.files.len() as u32;
        self.files.push(SourceFile {
            name: TextBuf::of(name),
            text: ListBuf::of(text),
            built_in,
            words: ListBuf::of(words),
            links: ListBuf::of(Vec::new(self.alloc)),
        })?;
        Ok(number)
    }

    /// Makes a file the next root. Out of memory, nothing is changed.
    pub fn push_root(&mut self, file: u32) -> Result<(), AllocError>
        requires few { root_count self.old + 1 < 2 ^ 32 }
        requires held { file < count_of self.old }
        ensures ok { OnOk result (self.new ≡ with_root self.old file) }
        ensures err { OnErr result (self.new ≡ self.old) }
    {
        self.roots.push(file)?;
        Ok(())
    }

    /// Links the include of `name` in the file `from`, between angle brackets or, where `angle` is
    /// false, between quotes, to the file `to`. Out of memory, nothing is changed.
    pub fn link(&mut self, from: u32, name: &[u8], angle: bool, to: u32) -> Result<(), AllocError>
        requires from_held { from < count_of self.old }
        requires to_held { to < count_of self.old }
        requires unlinked { candidate_of self.old from name.now angle ≡ None }
        ensures ok { OnOk result (self.new ≡ with_link self.old from name.now angle to) }
        ensures linked { OnOk result (candidate_of self.new from name.now angle ≡ Some to) }
        ensures err { OnErr result (self.new ≡ self.old) }
    {
        let link = Link {
            name: ListBuf::of(Vec::from_slice(self.alloc, name)?),
            angle,
            to,
        };
        let file = &mut self.files[from as usize];
        file.links.push(link)
    }
}

ghost use Rattle.std.specs.Prelude.{◌≡◌, ◌+◌, ◌<◌, ◌^◌, length};
ghost use Rattle.p10_base.specs.Gathered.{target_of};
ghost use Rattle.p10_base.specs.Places.{column_of, line_of};

/// The file to which an include is linked, among the links of a file.
fn target(links: &[Link], name: &[u8], angle: bool) -> Option<u32>
    ensures { result ≡ target_of name.now angle links.now }
{
    for link in links {
        if link.name.as_slice() == name && link.angle == angle {
            return Some(link.to);
        }
    }
    None
}

/// The line and the column of the place after a text, both from 1.
fn place_after(before: &[u8]) -> (u64, u64)
    requires { length before.now < 2 ^ 32 }
    ensures line { result.0 ≡ line_of before.now (length before.now) }
    ensures column { result.1 ≡ column_of before.now (length before.now) }
{
    let mut line = 1;
    let mut column = 1;
    for byte in before {
        if *byte == b'\n' {
            line += 1;
            column = 1;
        } else {
            column += 1;
        }
    }
    (line, column)
}
