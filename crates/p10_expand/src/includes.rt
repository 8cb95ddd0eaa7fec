//! The include lines of a file.

ghost use Rattle.std.specs.Prelude.{List, [], ◌∷◌, ◌++◌, map, IfOk, OnOk};
ghost use Rattle.p10_base.specs.Words.{plain_word};
ghost use Rattle.p10_direct.specs.Form.{BeginsWithHash};
ghost use Rattle.p10_direct.specs.Lines.{Piece, piece_of};
ghost use Rattle.p10_expand.specs.Includes.{Begins, IsNamedBy, NamedIn, AreIncludes};

use crate::place::Include;
use p10_base::{Limit, ListBuf, Word};
use p10_direct::{DirectFault, Directive, Line, directive, lines, one_outcome};
use std::alloc::{AllocError, Global};

/// The most nested includes: the limit M3. A file to which one more leads is gathered, but never expanded, so its own include
/// lines aren't followed.
pub const MOST_NESTED: u32 = Limit::MOST_NESTED_INCLUDES as u32;

/// The include lines of a file with these words, in their order, also those of skipped groups.
pub fn includes_of(alloc: Global, words: &[Word<'_>]) -> Result<Vec<Include>, AllocError>
    ensures { IfOk result (λ found. AreIncludes (map plain_word words.now) found.items) }
{
    let cut = lines(alloc, words)?;
    let mut includes = Vec::new(alloc);
    for line in cut.lines.as_slice() {
        push_include(alloc, line, &mut includes)?;
    }
    Ok(includes)
}

/// Puts what a line includes after the others.
fn push_include(
    alloc: Global,
    line: &Line<'_, '_>,
    includes: &mut Vec<Include>,
) -> Result<(), AllocError>
    requires { Begins (piece_of line.now) }
    ensures { OnOk result ((pieces : List Piece) → NamedIn pieces includes.old.items → NamedIn (pieces ++ piece_of line.now ∷ []) includes.new.items) }
{
    match line {
        Line::Text(_) => Ok(()),
        Line::Directive(words) => match include_of(alloc, words)? {
            None => Ok(()),
            Some(include) => {
                includes.push(include)?;
                Ok(())
            }
        },
    }
}

/// What a line includes, if it is an include line.
fn include_of(alloc: Global, line: &[Word<'_>]) -> Result<Option<Include>, AllocError>
    requires { BeginsWithHash (map plain_word line.now) }
    ensures { IfOk result (IsNamedBy (map plain_word line.now)) }
{
    one_outcome();
    match directive(alloc, line) {
        Ok(Directive::Include { name, angle }) => Ok(Some(Include {
            name: ListBuf::of(Vec::from_slice(alloc, name)?),
            angle,
        })),
        Ok(_) => Ok(None),
        Err(DirectFault::Refused(_)) => Ok(None),
        Err(DirectFault::Memory) => Err(AllocError),
    }
}
