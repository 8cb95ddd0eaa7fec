//! What the directives do.

ghost use Rattle.std.specs.Prelude.{◌≡◌, ◌<◌, map, OnOk, IfOk};
ghost use Rattle.p10_base.specs.Words.{plain_word};
ghost use Rattle.p10_base.specs.Gathered.{candidate_of, count_of};
ghost use Rattle.p10_direct.specs.Form.{plain, plain_macro, BeginsWithHash};
ghost use Rattle.p10_expand.specs.Headers.{header_of};
ghost use Rattle.p10_expand.specs.Obeying.{Does, ConditionGives, DefineGives, DefinitionGives, included, is_some_text, operand_place, mark_word, with_words};
ghost use Rattle.p10_expand.specs.Obeying as obeying;
ghost use Rattle.p10_expand.specs.private.Steps.{Steps, EntersBelow, Stays, state_of, file_of, next_of};

use crate::expansion::condition::{Verdict, defines, judge};
use crate::expansion::fault::ExpandFault;
use crate::expansion::items::among;
use crate::expansion::state::State;
use crate::expansion::step::Step;
use crate::expansion::texts::File;
use crate::headers::built_in;
use p10_base::{DirectiveCode, Kind, Limit, Refusal, Sources, Span, Word};
use p10_direct::{Directive, Macro, whole};
use p10_macros::Effect;
use std::alloc::{AllocError, Global};

/// The most macros that are defined at once, without those of built-in headers (M6).
const MOST_MACROS: usize = Limit::MOST_MACROS as usize;

/// Obeys the directive of a line.
pub fn obey<'w, 's>(
    alloc: Global,
    sources: &'s Sources,
    file: &File<'_, 'w, 's>,
    state: &mut State<'w, 's>,
    line: &'w [Word<'s>],
    directive: Directive<'w, 's>,
) -> Result<Step, ExpandFault>
    requires held { file.now.number < count_of sources.now }
    requires begins { BeginsWithHash (map plain_word line.now) }
    ensures entered { IfOk result (EntersBelow (count_of sources.now)) }
    ensures gives { Steps (Does sources.now (file_of file.now) (map plain_word line.now) (plain directive.entry) (state_of state.old)) result state.new }
{
    match directive {
        Directive::Null | Directive::Else | Directive::Endif | Directive::OtherPragma => {
            Ok(Step::On(true))
        }
        Directive::Include { name, angle } => {
            Ok(include(sources, file.number, state, line, name, angle))
        }
        Directive::Define(made) => define(file.built_in, state, line, made),
        Directive::Undef(name) => {
            state.macros.undefine(name);
            Ok(Step::On(true))
        }
        Directive::If(condition) | Directive::Elif(condition) => {
            choose(alloc, state, line, condition)
        }
        Directive::Ifdef(name) => Ok(Step::On(defines(&state.macros, name))),
        Directive::Ifndef(name) => Ok(Step::On(!defines(&state.macros, name))),
        Directive::Once => {
            let _ = state.once.add(sources.name(file.number).as_bytes())?;
            Ok(Step::On(true))
        }
        Directive::InitDone | Directive::TaskLoop => {
            mark(state, line)?;
            Ok(Step::On(true))
        }
    }
}

/// Obeys an `#if` or `#elif`.
fn choose<'w, 's>(
    alloc: Global,
    state: &mut State<'w, 's>,
    line: &[Word<'s>],
    condition: &[Word<'s>],
) -> Result<Step, ExpandFault>
    requires { BeginsWithHash (map plain_word line.now) }
    ensures entered { IfOk result Stays }
    ensures gives { Steps (ConditionGives (map plain_word line.now) (map plain_word condition.now) (state_of state.old)) result state.new }
{
    match judge(alloc, &state.macros, whole(line), condition, state.left)? {
        Verdict::Holds { truth, left } => {
            state.left = left;
            Ok(Step::On(truth))
        }
        Verdict::Fails(refusal) => Ok(Step::Refused(refusal)),
    }
}

/// What comes of an include of `name`, whose line is this.
fn include<'w, 's>(
    sources: &'s Sources,
    from: u32,
    state: &State<'w, 's>,
    line: &[Word<'s>],
    name: &[u8],
    angle: bool,
) -> Step
    requires { BeginsWithHash (map plain_word line.now) }
    ensures entered { EntersBelow (count_of sources.now) result }
    ensures gives { next_of result state.now ≡ included sources.now (map plain_word line.now) name.now (state_of state.now) (candidate_of sources.now from name.now angle) }
{
    match sources.candidate(from, name, angle) {
        None => Step::Refused(Refusal::directive(DirectiveCode::IncludeNotFound, operand(line))),
        Some(number) => {
            if state.once.contains(sources.name(number).as_bytes()) {
                Step::On(true)
            } else {
                Step::Enter {
                    number,
                    built_in: is_header(sources, number, name),
                }
            }
        }
    }
}

/// Whether the file that is found for a name is the built-in header of that name.
fn is_header(sources: &Sources, number: u32, name: &[u8]) -> bool
    requires { number < count_of sources.now }
    ensures { result ≡ obeying.is_header sources.now number name.now }
{
    sources.is_built_in(number) && is_text_of(sources.text(number), name)
}

/// Whether this is the text of the built-in header with this name.
fn is_text_of(text: &[u8], name: &[u8]) -> bool
    ensures { result ≡ is_some_text text.now (header_of name.now) }
{
    match built_in(name) {
        Some(header) => header.text == text,
        None => false,
    }
}

/// The place of the word after the name of a directive.
fn operand(line: &[Word<'_>]) -> Span
    requires { BeginsWithHash (map plain_word line.now) }
    ensures { result ≡ operand_place (map plain_word line.now) }
{
    match line {
        [_, _, word, ..] => word.at,
        _ => whole(line),
    }
}

/// Obeys a definition; one of a built-in header is an item, which is given once.
fn define<'w, 's>(
    built_in: bool,
    state: &mut State<'w, 's>,
    line: &[Word<'s>],
    made: Macro<'w, 's>,
) -> Result<Step, ExpandFault>
    requires { BeginsWithHash (map plain_word line.now) }
    ensures entered { IfOk result Stays }
    ensures gives { Steps (DefineGives built_in (map plain_word line.now) (plain_macro made.entry) (state_of state.old)) result state.new }
{
    if built_in {
        if among(&state.given, made.name) {
            return Ok(Step::On(true));
        }
        state.given.push(made.name)?;
    }
    define_macro(built_in, state, line, made)
}

/// Defines a macro.
fn define_macro<'w, 's>(
    built_in: bool,
    state: &mut State<'w, 's>,
    line: &[Word<'s>],
    made: Macro<'w, 's>,
) -> Result<Step, ExpandFault>
    requires { BeginsWithHash (map plain_word line.now) }
    ensures entered { IfOk result Stays }
    ensures gives { Steps (DefinitionGives built_in (map plain_word line.now) (plain_macro made.entry) (state_of state.old)) result state.new }
{
    match state.macros.define(made, built_in)? {
        Effect::New => {
            if MOST_MACROS < state.macros.own() {
                Err(ExpandFault::Over(Limit::MACROS))
            } else {
                Ok(Step::On(true))
            }
        }
        Effect::Same => Ok(Step::On(true)),
        Effect::Other => Ok(Step::Refused(Refusal::directive(
            DirectiveCode::BadDefinition,
            operand(line),
        ))),
    }
}

/// Leaves the mark of a pragma of this program.
fn mark<'w, 's>(state: &mut State<'w, 's>, line: &[Word<'s>]) -> Result<(), AllocError>
    requires { BeginsWithHash (map plain_word line.now) }
    ensures { OnOk result (state_of state.new ≡ with_words (state_of state.old) (mark_word (map plain_word line.now))) }
{
    let last = line[line.len() - 1];
    state.words.push(Word {
        kind: Kind::Mark,
        text: last.text,
        at: last.at,
        first: last.first,
    })?;
    Ok(())
}
