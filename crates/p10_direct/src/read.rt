//! Reads one directive line.

ghost use Rattle.std.specs.Prelude.{◌≡◌, ◌<◌, length, map, option_copied, IfOk, IfErr};
ghost use Rattle.p10_base.specs.Words.{plain_word};
ghost use Rattle.p10_direct.specs.Directives.{Spells, IsFunctionLikeNamed, IsFunctionLikeBehind, place_of, Undef, Ifdef, Ifndef, Else, Endif, LinesHaveOneOutcome};
ghost use Rattle.p10_lex.specs.Literals.{inside};
ghost use Rattle.p10_direct.specs.Form.{plain, BeginsWithHash, IsFaultOf};
ghost use Rattle.p10_direct.specs.private.Telling.{Tells, TellsUnless, fault_of};
ghost use Rattle.p10_direct.specs.private.Reading.{include_of, of_name, only_name_of, alone, own_of, pragma_of, named_outcome, outcome_behind};

use crate::definition::define;
use crate::form::{DirectFault, Directive};
use crate::keyword::{Keyword, directive_named};
use p10_base::{DirectiveCode, Kind, Refusal, Span, Word};
use p10_lex::between;
use std::alloc::Global;

/// The directive that a line spells, or its refusal: D1 at the directive for an unknown one or one
/// of another form; D4 for a bad definition, at the defined name, or at the directive where it has none.
///
/// `line` has the words of one directive line, from its `#` on. A name that is defined with another list
/// isn't refused here. Memory may run out only where the line begins as the definition of a
/// function-like macro, `#define NAME(`.
pub fn directive<'w, 's>(
    alloc: Global,
    line: &'w [Word<'s>],
) -> Result<Directive<'w, 's>, DirectFault>
    requires { BeginsWithHash (map plain_word line.now) }
    ensures read { IfOk result (λ found. Spells (plain found) (map plain_word line.now)) }
    ensures refused { IfErr result (IsFaultOf (map plain_word line.now)) }
{
    read_behind(alloc, whole(line), &line[1..])
}

/// Each line has one outcome: a directive that it spells, or one refusal.
pub fn one_outcome()
    ensures { LinesHaveOneOutcome }
{}

/// The place of a directive: from its `#`, the first word of `line`, to the end of the last one.
pub fn whole(line: &[Word<'_>]) -> Span
    requires { 0 < length line.now }
    ensures { result ≡ place_of (map plain_word line.now) }
{
    Span {
        file: line[0].at.file,
        start: line[0].at.start,
        end: line[line.len() - 1].at.end,
    }
}

/// The refusal of a directive with the place `whole` that is unknown or of another form.
pub fn bad_form(whole: Span) -> DirectFault
    ensures { result ≡ fault_of DirectiveCode.BadDirective whole }
{
    DirectFault::Refused(Refusal::directive(DirectiveCode::BadDirective, whole))
}

/// Reads the words after `#`.
fn read_behind<'w, 's>(
    alloc: Global,
    whole: Span,
    words: &'w [Word<'s>],
) -> Result<Directive<'w, 's>, DirectFault>
    ensures { TellsUnless (IsFunctionLikeBehind (map plain_word words.now)) whole (outcome_behind whole (map plain_word words.now)) result }
{
    match words {
        [] => Ok(Directive::Null),
        [name, others @ ..] => read_named(alloc, whole, directive_named(name), others),
    }
}

/// Reads the words after the name of a directive.
fn read_named<'w, 's>(
    alloc: Global,
    whole: Span,
    name: Option<Keyword>,
    words: &'w [Word<'s>],
) -> Result<Directive<'w, 's>, DirectFault>
    ensures { TellsUnless (IsFunctionLikeNamed name (map plain_word words.now)) whole (named_outcome whole name (map plain_word words.now)) result }
{
    match name {
        None => Err(bad_form(whole)),
        Some(Keyword::Include) => include(whole, words),
        Some(Keyword::Define) => define(alloc, whole, words),
        Some(Keyword::Undef) => undef(whole, words),
        Some(Keyword::If) => Ok(Directive::If(words)),
        Some(Keyword::Elif) => Ok(Directive::Elif(words)),
        Some(Keyword::Ifdef) => ifdef(whole, words),
        Some(Keyword::Ifndef) => ifndef(whole, words),
        Some(Keyword::Else) => lone_else(whole, words),
        Some(Keyword::Endif) => lone_endif(whole, words),
        Some(Keyword::Pragma) => pragma(whole, words),
    }
}

fn include<'w, 's>(whole: Span, words: &'w [Word<'s>]) -> Result<Directive<'w, 's>, DirectFault>
    ensures { Tells whole (include_of (map plain_word words.now)) result }
{
    let [word] = words else {
        return Err(bad_form(whole));
    };
    if !matches!(word.kind, Kind::Str) {
        return Err(bad_form(whole));
    }
    if let Some(name) = between(word.text, b'<', b'>') {
        return Ok(Directive::Include { name, angle: true });
    }
    match between(word.text, b'"', b'"') {
        Some(name) => Ok(Directive::Include { name, angle: false }),
        None => Err(bad_form(whole)),
    }
}

/// The one name of the words.
fn only_name<'s>(words: &[Word<'s>]) -> Option<&'s [u8]>
    ensures { option_copied result ≡ only_name_of (map plain_word words.now) }
{
    match words {
        [word] if matches!(word.kind, Kind::Name) => Some(word.text),
        _ => None,
    }
}

fn undef<'w, 's>(whole: Span, words: &'w [Word<'s>]) -> Result<Directive<'w, 's>, DirectFault>
    ensures { Tells whole (of_name Undef (map plain_word words.now)) result }
{
    match only_name(words) {
        Some(name) => Ok(Directive::Undef(name)),
        None => Err(bad_form(whole)),
    }
}

fn ifdef<'w, 's>(whole: Span, words: &'w [Word<'s>]) -> Result<Directive<'w, 's>, DirectFault>
    ensures { Tells whole (of_name Ifdef (map plain_word words.now)) result }
{
    match only_name(words) {
        Some(name) => Ok(Directive::Ifdef(name)),
        None => Err(bad_form(whole)),
    }
}

fn ifndef<'w, 's>(whole: Span, words: &'w [Word<'s>]) -> Result<Directive<'w, 's>, DirectFault>
    ensures { Tells whole (of_name Ifndef (map plain_word words.now)) result }
{
    match only_name(words) {
        Some(name) => Ok(Directive::Ifndef(name)),
        None => Err(bad_form(whole)),
    }
}

fn lone_else<'w, 's>(whole: Span, words: &'w [Word<'s>]) -> Result<Directive<'w, 's>, DirectFault>
    ensures { Tells whole (alone Else (map plain_word words.now)) result }
{
    if words.is_empty() {
        Ok(Directive::Else)
    } else {
        Err(bad_form(whole))
    }
}

fn lone_endif<'w, 's>(whole: Span, words: &'w [Word<'s>]) -> Result<Directive<'w, 's>, DirectFault>
    ensures { Tells whole (alone Endif (map plain_word words.now)) result }
{
    if words.is_empty() {
        Ok(Directive::Endif)
    } else {
        Err(bad_form(whole))
    }
}

fn pragma<'w, 's>(whole: Span, words: &'w [Word<'s>]) -> Result<Directive<'w, 's>, DirectFault>
    ensures { Tells whole (pragma_of (map plain_word words.now)) result }
{
    match words {
        [] => Ok(Directive::OtherPragma),
        [word, others @ ..] => {
            if word.is_name(b"p10") {
                own_pragma(whole, others)
            } else if word.is_name(b"once") && others.is_empty() {
                Ok(Directive::Once)
            } else {
                Ok(Directive::OtherPragma)
            }
        }
    }
}

/// Reads the words after `#pragma p10`.
fn own_pragma<'w, 's>(whole: Span, words: &'w [Word<'s>]) -> Result<Directive<'w, 's>, DirectFault>
    ensures { Tells whole (own_of (map plain_word words.now)) result }
{
    let [word] = words else {
        return Err(bad_form(whole));
    };
    if word.is_name(b"init_done") {
        Ok(Directive::InitDone)
    } else if word.is_name(b"task_loop") {
        Ok(Directive::TaskLoop)
    } else {
        Err(bad_form(whole))
    }
}
