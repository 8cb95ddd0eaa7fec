//! One line of a file.

ghost use Rattle.std.specs.Prelude.{◌≡◌, ◌<◌, map, OnOk, IfOk};
ghost use Rattle.p10_base.specs.Words.{plain_word};
ghost use Rattle.p10_base.specs.Gathered.{count_of};
ghost use Rattle.p10_base.specs.Codes.{directive_refusal};
ghost use Rattle.p10_direct.specs.Directives.{place_of};
ghost use Rattle.p10_direct.specs.Lines.{piece_of, words_of};
ghost use Rattle.p10_direct.specs.Form.{BeginsWithHash};
ghost use Rattle.p10_expand.specs.Includes.{Begins};
ghost use Rattle.p10_expand.specs.Obeying.{LineGives, ObeyedGives, listed, passed, breaks_at};
ghost use Rattle.p10_expand.specs.Before.{ComeInOrder};
ghost use Rattle.p10_expand.specs.private.Steps.{Steps, Stays, state_of, file_of, next_of, KnowsBalance, EntersBelow};

use crate::expanded::Obeyed;
use crate::expansion::directives::obey;
use crate::expansion::fault::ExpandFault;
use crate::expansion::guard::guarded;
use crate::expansion::run::expand_run;
use crate::expansion::state::State;
use crate::expansion::step::Step;
use crate::expansion::texts::{File, MetLine};
use p10_base::{DirectiveCode, ListBuf, Refusal, Sources, Word};
use p10_direct::{DirectFault, Line, directive, whole};
use std::alloc::{AllocError, Global};

/// Expands a line or a run of text, which is obeyed or not.
pub fn expand_line<'w, 's>(
    alloc: Global,
    sources: &'s Sources,
    file: &File<'_, 'w, 's>,
    state: &mut State<'w, 's>,
    met: MetLine<'_, 'w, 's>,
) -> Result<Step, ExpandFault>
    requires held { file.now.number < count_of sources.now }
    requires balance { KnowsBalance file.now }
    requires begins { Begins (piece_of met.line.now) }
    ensures gives { ComeInOrder 0 (words_of (piece_of met.entry.line.now)) → Steps (LineGives sources.now (file_of file.now) met.entry.obeyed met.entry.place (piece_of met.entry.line.now) (state_of state.old)) result state.new }
    ensures entered { IfOk result (EntersBelow (count_of sources.now)) }
{
    match met.line {
        Line::Directive(words) => {
            if met.obeyed {
                list(alloc, file, state, met.place, words)?;
                obey_line(alloc, sources, file, state, met.place, words)
            } else {
                Ok(pass_line(alloc, file, state, met.place, words)?)
            }
        }
        Line::Text(words) => {
            if met.obeyed {
                expand_run(alloc, file.built_in, state, words)
            } else {
                Ok(Step::On(true))
            }
        }
    }
}

/// Passes over a directive line that isn't obeyed.
fn pass_line<'w, 's>(
    alloc: Global,
    file: &File<'_, 'w, 's>,
    state: &mut State<'w, 's>,
    place: usize,
    line: &'w [Word<'s>],
) -> Result<Step, AllocError>
    requires balance { KnowsBalance file.now }
    requires begins { BeginsWithHash (map plain_word line.now) }
    ensures gives { IfOk result (λ step. next_of step state.new ≡ passed (file_of file.now) place (map plain_word line.now) (state_of state.old)) }
    ensures stays { IfOk result Stays }
{
    if breaks(file, place) {
        list(alloc, file, state, place, line)?;
        Ok(Step::Refused(unbalanced(line)))
    } else {
        Ok(Step::On(true))
    }
}

/// The refusal of a line whose conditional isn't balanced.
fn unbalanced(line: &[Word<'_>]) -> Refusal
    requires { BeginsWithHash (map plain_word line.now) }
    ensures { result ≡ directive_refusal DirectiveCode.UnbalancedConditional (place_of (map plain_word line.now)) }
{
    Refusal::directive(DirectiveCode::UnbalancedConditional, whole(line))
}

/// Obeys a line that is listed.
fn obey_line<'w, 's>(
    alloc: Global,
    sources: &'s Sources,
    file: &File<'_, 'w, 's>,
    state: &mut State<'w, 's>,
    place: usize,
    line: &'w [Word<'s>],
) -> Result<Step, ExpandFault>
    requires held { file.now.number < count_of sources.now }
    requires balance { KnowsBalance file.now }
    requires begins { BeginsWithHash (map plain_word line.now) }
    ensures gives { Steps (ObeyedGives sources.now (file_of file.now) place (map plain_word line.now) (state_of state.old)) result state.new }
    ensures entered { IfOk result (EntersBelow (count_of sources.now)) }
{
    match directive(alloc, line) {
        Ok(read) => {
            if breaks(file, place) {
                Ok(Step::Refused(unbalanced(line)))
            } else {
                obey(alloc, sources, file, state, line, read)
            }
        }
        Err(DirectFault::Refused(refusal)) => Ok(Step::Refused(refusal)),
        Err(DirectFault::Memory) => Err(ExpandFault::Memory),
    }
}

/// Whether the line at this place is the first that breaks the structure of the file's conditionals.
fn breaks(file: &File<'_, '_, '_>, place: usize) -> bool
    requires { KnowsBalance file.now }
    ensures { result ≡ breaks_at (file_of file.now) place }
{
    match file.cut.unbalanced {
        None => false,
        Some(other) => place == other,
    }
}

/// Lists a directive among those that were obeyed, if its file is no built-in header.
fn list<'w, 's>(
    alloc: Global,
    file: &File<'_, 'w, 's>,
    state: &mut State<'w, 's>,
    place: usize,
    line: &[Word<'s>],
) -> Result<(), AllocError>
    requires { BeginsWithHash (map plain_word line.now) }
    ensures { OnOk result (state_of state.new ≡ listed (file_of file.now) place (map plain_word line.now) (state_of state.old)) }
{
    if file.built_in {
        return Ok(());
    }
    state.obeyed.push(Obeyed {
        words: ListBuf::of(Vec::from_slice(alloc, line)?),
        span: whole(line),
        guard: place == 0 && guarded(file.cut.lines.as_slice()),
    })
}
