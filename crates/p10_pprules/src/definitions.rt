//! The definitions among the obeyed directives.

ghost use Rattle.std.specs.Prelude.{◌≡◌, map, IfOk, OnOk};
ghost use Rattle.p10_base.specs.Words.{plain_word};
ghost use Rattle.p10_expand.specs.Answers.{plain_obeyed};
ghost use Rattle.p10_direct.specs.Form.{plain_definition};
ghost use Rattle.p10_pprules.specs.private.Gathering.{AreDefined, Gathers, GathersWords, is_define};
ghost use Rattle.p10_pprules.specs.Lines.{name_of};

use crate::line::{directive_name, operands};
use p10_base::Word;
use p10_direct::{Definition, Keyword, read_definition};
use p10_expand::Obeyed;
use std::alloc::{AllocError, Global};

/// The definitions among the obeyed directives, in their order, also those that are refused.
pub fn definitions_of<'w, 's>(
    alloc: Global,
    obeyed: &'w [Obeyed<'s>],
) -> Result<Vec<Definition<'w, 's>>, AllocError>
    ensures { IfOk result (λ found. AreDefined (map plain_obeyed obeyed.now) (map plain_definition found.items)) }
{
    let mut definitions = Vec::new(alloc);
    for line in obeyed {
        push_definition(alloc, line.words.as_slice(), &mut definitions)?;
    }
    Ok(definitions)
}

/// Puts the definition that a line is after the others.
fn push_definition<'w, 's>(
    alloc: Global,
    line: &'w [Word<'s>],
    definitions: &mut Vec<Definition<'w, 's>>,
) -> Result<(), AllocError>
    ensures { OnOk result (Gathers (map plain_word line.now) (map plain_definition definitions.old.items) (map plain_definition definitions.new.items)) }
{
    if !is_definition(line) {
        return Ok(());
    }
    push_words(alloc, operands(line), definitions)
}

/// Whether the line names `define`.
fn is_definition(line: &[Word<'_>]) -> bool
    ensures { result ≡ is_define (name_of (map plain_word line.now)) }
{
    matches!(directive_name(line), Some(Keyword::Define))
}

/// Puts the definition that the words after `define` are after the others.
fn push_words<'w, 's>(
    alloc: Global,
    words: &'w [Word<'s>],
    definitions: &mut Vec<Definition<'w, 's>>,
) -> Result<(), AllocError>
    ensures { OnOk result (GathersWords (map plain_word words.now) (map plain_definition definitions.old.items) (map plain_definition definitions.new.items)) }
{
    match read_definition(alloc, words) {
        Ok(None) => Ok(()),
        Ok(Some(found)) => {
            definitions.push(found)?;
            Ok(())
        }
        Err(error) => Err(error),
    }
}
