//! The evidence of differences that certificates have.

ghost use Rattle.std.specs.Prelude.{◌≡◌, map, option_map, option_copied, bytes_eq};
ghost use Rattle.p10_cert.specs.Sealed.{section_of};
ghost use Rattle.p10_cert.specs.Statements.{lines_named};
ghost use Rattle.p10_incr.specs.Alike.{all_alike};
ghost use Rattle.p10_incr.specs.Edits.{same_lines, same_evidence, evidence_name};
ghost use Rattle.p10_incr.specs.private.Entries.{lines_in};

use p10_base::ListBuf;
use p10_cert::Section;

/// Whether two certificates have the same evidence of differences: a section without lines is another than none.
pub(crate) fn same_evidence(these: &[Section], others: &[Section]) -> bool
    ensures { result ≡ same_evidence (map section_of these.now) (map section_of others.now) }
{
    same_lines(evidence_in(these), evidence_in(others))
}

/// The section with evidence of differences, if there is one.
fn evidence_in(sections: &[Section]) -> Option<&Section>
    ensures { lines_in (option_copied result) ≡ lines_named evidence_name (map section_of sections.now) }
{
    let mut sections = sections;
    while let [section, others @ ..] = sections {
        if is_evidence(section) {
            return Some(section);
        }
        sections = others;
    }
    None
}

/// Whether a section has evidence of differences.
fn is_evidence(section: &Section) -> bool
    ensures { result ≡ bytes_eq section.now.name evidence_name }
{
    section.name.as_slice() == b"diff".as_slice()
}

/// Whether two sections have the same lines, or both are lacking.
fn same_lines(one: Option<&Section>, other: Option<&Section>) -> bool
    ensures { result ≡ same_lines (lines_in (option_copied one.entry)) (lines_in (option_copied other.entry)) }
{
    match one {
        Some(these) => match other {
            Some(others) => all_same(these.lines.as_slice(), others.lines.as_slice()),
            None => false,
        },
        None => other.is_none(),
    }
}

/// Whether lines are the same, one after the other.
fn all_same(these: &[ListBuf<u8>], others: &[ListBuf<u8>]) -> bool
    ensures { result ≡ all_alike bytes_eq these.now others.now }
{
    let mut these = these;
    let mut others = others;
    while let [line, rest @ ..] = these {
        match others {
            [other, further @ ..] => {
                if line.as_slice() != other.as_slice() {
                    return false;
                }
                these = rest;
                others = further;
            }
            [] => return false,
        }
    }
    others.is_empty()
}
