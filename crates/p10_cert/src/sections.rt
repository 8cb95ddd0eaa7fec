//! The sections of a certificate of version 2, collected from the lines after the bounds.

ghost use Rattle.std.specs.Prelude.{◌≡◌, [], ◌∷◌, ◌++◌, map, option_map, IfOk, OnOk};
ghost use Rattle.p10_cert.specs.Sealed.{section_of};
ghost use Rattle.p10_cert.specs.private.Plain.{plain_section};
ghost use Rattle.p10_cert.specs.private.Sections.{named_at, next_body_at, bodies_in, sections_in};

use crate::bytes::after;
use crate::line::{SectionStart, body_text, section_start};
use crate::sealed::Section;
use p10_base::ListBuf;
use std::alloc::{AllocError, Global};

/// The sections of a text.
pub(crate) fn sections(alloc: Global, text: &[u8]) -> Result<ListBuf<Section>, AllocError>
    ensures { IfOk result (λ found. map section_of found ≡ sections_in text.now) }
{
    let mut found = no_sections(alloc);
    let mut rest = text;
    while let Some((start, lines)) = named(rest) {
        let left = push_section(alloc, &mut found, start, lines)?;
        rest = left;
    }
    Ok(found)
}

/// Puts a section at the end of those before it, and gives what stands after its lines.
fn push_section<'c>(
    alloc: Global,
    found: &mut ListBuf<Section>,
    start: SectionStart<'c>,
    text: &'c [u8],
) -> Result<&'c [u8], AllocError>
    ensures pushed { OnOk result (map section_of found.new ≡ map section_of found.old ++ record { name = start.entry.name.now; lines = (bodies_in start.entry.count text.now).0 } ∷ []) }
    ensures rest { IfOk result (λ rest. rest.now ≡ (bodies_in start.entry.count text.now).1) }
{
    let mut lines = ListBuf::of(Vec::new(alloc));
    let rest = push_bodies(alloc, &mut lines, start.count, text)?;
    let name = ListBuf::of(Vec::from_slice(alloc, start.name)?);
    found.push(Section { name, lines })?;
    Ok(rest)
}

/// Puts at most so many lines of a section at the end of `lines`, and gives what stands after them.
fn push_bodies<'c>(
    alloc: Global,
    lines: &mut ListBuf<ListBuf<u8>>,
    count: u32,
    text: &'c [u8],
) -> Result<&'c [u8], AllocError>
    ensures pushed { OnOk result (lines.new ≡ lines.old ++ (bodies_in count text.now).0) }
    ensures rest { IfOk result (λ rest. rest.now ≡ (bodies_in count text.now).1) }
{
    let mut rest = text;
    let mut left = count;
    while let Some((bytes, after)) = next_body(left, rest) {
        push_line(alloc, lines, bytes)?;
        rest = after;
        left = left.saturating_sub(1);
    }
    Ok(rest)
}

/// Puts a line at the end of those before it.
fn push_line(
    alloc: Global,
    lines: &mut ListBuf<ListBuf<u8>>,
    bytes: &[u8],
) -> Result<(), AllocError>
    ensures { OnOk result (lines.new ≡ lines.old ++ bytes.now ∷ []) }
{
    let line = ListBuf::of(Vec::from_slice(alloc, bytes)?);
    lines.push(line)
}

/// A line of a section, where so many are left, and what stands after it.
fn next_body(left: u32, text: &[u8]) -> Option<(&[u8], &[u8])>
    ensures { option_map (λ x. (x.0.now, x.1.now)) result ≡ next_body_at left text.now }
{
    if left == 0 {
        return None;
    }
    body_text(text)
}

/// No sections.
fn no_sections(alloc: Global) -> ListBuf<Section>
    ensures { result ≡ [] }
{
    ListBuf::of(Vec::new(alloc))
}

/// What the first line of a section says, and what stands after it.
#[tactic(auto, unfolding(crate::specs::private::Sections::named_at))]
fn named(text: &[u8]) -> Option<(SectionStart<'_>, &[u8])>
    ensures { option_map (λ x. (plain_section x.0, x.1.now)) result ≡ named_at text.now }
{
    section_start(after(text, b"section ")?)
}
