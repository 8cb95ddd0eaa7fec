//! Reads the definition of a macro (C99 6.10.3).

ghost use Rattle.std.specs.Prelude.{◌≡◌, ◌≤◌, [], map, length, true, option_map, IsSome, IfOk, OnErr, IsTrue};
ghost use Rattle.std.specs.List.{list_any};
ghost use Rattle.p10_base.specs.Words.{plain_word, spellings_of};
ghost use Rattle.p10_direct.specs.Directives.{IsDefinition, IsFunctionLike, is_refused, has_repeated_text, repeats_a_parameter, has_ellipsis, is_ellipsis, has_bad_word, is_bad};
ghost use Rattle.p10_direct.specs.private.Telling.{TellsUnless, fault_of};
ghost use Rattle.p10_direct.specs.Form.{plain_definition};
ghost use Rattle.p10_direct.specs.private.Reading.{definition_of, definition_read, defined_of, judged, parameters_of, behind_parameters, parameter_of, has_list};
ghost use Rattle.p10_direct.specs.private.Listed.{parameters_read, parameter_read};

use crate::form::{Definition, DirectFault, Directive, Macro};
use crate::read::bad_form;
use p10_base::{DirectiveCode, Kind, ListBuf, Refusal, Span, Word};
use std::alloc::{AllocError, Global};
use std::collections::HashSet;

/// What a parameter list is.
#[derive(Drop)]
enum Parameters<'w, 's> {
    /// None of the forms.
    Wrong,
    /// The parameters, a last `...` among them, and the words after the list.
    Listed(ListBuf<Word<'s>>, &'w [Word<'s>]),
}

/// A parameter, and what the word after it says.
#[derive(Clone, Copy)]
enum Parameter<'s> {
    /// None of the forms.
    Wrong,
    /// A name or `...` as the last parameter.
    Last(Word<'s>),
    /// A name with a comma after it.
    Further(Word<'s>),
}

/// Reads the words after `#define` as a directive; `whole` is the place of its line.
pub fn define<'w, 's>(
    alloc: Global,
    whole: Span,
    words: &'w [Word<'s>],
) -> Result<Directive<'w, 's>, DirectFault>
    ensures { TellsUnless (IsFunctionLike (map plain_word words.now)) whole (definition_of whole (map plain_word words.now)) result }
{
    match words {
        [name, others @ ..] if matches!(name.kind, Kind::Name) => {
            match read_behind_name(alloc, name, others) {
                Ok(Some(found)) => judge(alloc, whole, found),
                Ok(None) => Err(bad_form(whole)),
                Err(_) => Err(DirectFault::Memory),
            }
        }
        _ => Err(bad_definition(whole)),
    }
}

/// The definition that these words after `#define` are, also one that is refused: a name, or a name
/// with a parameter list directly after it, and a replacement list (C99 6.10p1).
///
/// `words` go to the end of the line. `None` where they begin with no name, or with a parameter list of
/// another form. It fails only where memory runs out.
pub fn read_definition<'w, 's>(
    alloc: Global,
    words: &'w [Word<'s>],
) -> Result<Option<Definition<'w, 's>>, AllocError>
    ensures { IfOk result (λ found. IsDefinition (map plain_word words.now) (option_map plain_definition found)) }
{
    read_words(alloc, words)
}

/// Reads the words after `#define`.
fn read_words<'w, 's>(
    alloc: Global,
    words: &'w [Word<'s>],
) -> Result<Option<Definition<'w, 's>>, AllocError>
    ensures { IfOk result (λ found. option_map plain_definition found ≡ definition_read (map plain_word words.now)) }
{
    match words {
        [name, others @ ..] if matches!(name.kind, Kind::Name) => read_behind_name(
            alloc, name, others,
        ),
        _ => Ok(None),
    }
}

/// The refusal of a bad definition.
fn bad_definition(at: Span) -> DirectFault
    ensures { result ≡ fault_of DirectiveCode.BadDefinition at }
{
    DirectFault::Refused(Refusal::directive(DirectiveCode::BadDefinition, at))
}

/// Reads the words after the defined name.
fn read_behind_name<'w, 's>(
    alloc: Global,
    name: &Word<'s>,
    words: &'w [Word<'s>],
) -> Result<Option<Definition<'w, 's>>, AllocError>
    ensures read { IfOk result (λ found. option_map plain_definition found ≡ defined_of (plain_word name.now) (map plain_word words.now)) }
    ensures memory { OnErr result (IsTrue (has_list (plain_word name.now) (map plain_word words.now))) }
{
    if !begins_list(name, words) {
        return Ok(Some(Definition {
            name: *name,
            parameters: None,
            body: words,
        }));
    }
    match read_parameters(alloc, &words[1..]) {
        Ok(Parameters::Wrong) => Ok(None),
        Ok(Parameters::Listed(parameters, body)) => Ok(Some(Definition {
            name: *name,
            parameters: Some(parameters),
            body,
        })),
        Err(error) => Err(error),
    }
}

/// Whether the words begin with the `(` of a parameter list.
fn begins_list(name: &Word<'_>, words: &[Word<'_>]) -> bool
    ensures { result ≡ has_list (plain_word name.now) (map plain_word words.now) }
{
    match words {
        [] => false,
        [word, ..] => word.is_punctuator(b"(") && name.at.end == word.at.start,
    }
}

/// The macro, unless the definition is a bad one.
fn judge<'w, 's>(
    alloc: Global,
    whole: Span,
    found: Definition<'w, 's>,
) -> Result<Directive<'w, 's>, DirectFault>
    ensures told { TellsUnless (IsSome found.entry.parameters) whole (judged (plain_definition found.entry)) result }
    ensures sure { IsTrue (has_bad_word (plain_definition found.entry)) → result ≡ Err (fault_of DirectiveCode.BadDefinition found.entry.name.at) }
{
    match is_bad_definition(alloc, &found) {
        Ok(true) => Err(bad_definition(found.name.at)),
        Ok(false) => match parameter_names(alloc, &found.parameters) {
            Ok(params) => Ok(Directive::Define(Macro {
                name: found.name.text,
                params,
                body: found.body,
            })),
            Err(_) => Err(DirectFault::Memory),
        },
        Err(_) => Err(DirectFault::Memory),
    }
}

/// Whether the definition is refused. Where one word makes it a bad one, the answer needs no memory.
fn is_bad_definition(alloc: Global, found: &Definition<'_, '_>) -> Result<bool, AllocError>
    ensures exact { IfOk result (λ bad. bad ≡ is_bad (plain_definition found.now)) }
    ensures sure { IsTrue (has_bad_word (plain_definition found.now)) → result ≡ Ok true }
    ensures memory { OnErr result (IsSome found.now.parameters) }
{
    if has_bad_word(found) {
        Ok(true)
    } else {
        repeats_a_parameter(alloc, found)
    }
}

/// Whether one word makes the definition a bad one.
fn has_bad_word(found: &Definition<'_, '_>) -> bool
    ensures { result ≡ has_bad_word (plain_definition found.now) }
{
    is_variadic(found) || found.name.text == b"defined".as_slice() || has_pasting(found.body)
}

/// Whether `...` is among the parameters.
pub fn is_variadic(found: &Definition<'_, '_>) -> bool
    ensures { result ≡ has_ellipsis (plain_definition found.now).parameters }
{
    match &found.parameters {
        None => false,
        Some(parameters) => has_ellipsis_among(parameters.as_slice()),
    }
}

/// Whether `...` is among the words.
fn has_ellipsis_among(words: &[Word<'_>]) -> bool
    ensures { result ≡ list_any is_ellipsis (map plain_word words.now) }
{
    for word in words {
        if word.is_punctuator(b"...") {
            return true;
        }
    }
    false
}

/// Whether a parameter stands twice.
fn repeats_a_parameter(alloc: Global, found: &Definition<'_, '_>) -> Result<bool, AllocError>
    ensures exact { IfOk result (λ repeats. repeats ≡ repeats_a_parameter (plain_definition found.now)) }
    ensures memory { OnErr result (IsSome found.now.parameters) }
{
    match &found.parameters {
        None => Ok(false),
        Some(parameters) => has_repeated_text(alloc, parameters.as_slice()),
    }
}

/// Whether a text stands twice. Each text is looked for in a set of those after it and not among the words, since
/// a macro may have very many parameters.
fn has_repeated_text(alloc: Global, words: &[Word<'_>]) -> Result<bool, AllocError>
    ensures { IfOk result (λ repeated. repeated ≡ has_repeated_text (spellings_of (map plain_word words.now))) }
{
    let mut behind = HashSet::new(alloc);
    let mut place = words.len();
    while place > 0 {
        place -= 1;
        if !behind.insert(words[place].text)? {
            return Ok(true);
        }
    }
    Ok(false)
}

/// Whether a replacement list has `#`, `##` or `...`.
pub fn has_pasting(body: &[Word<'_>]) -> bool
    ensures { result ≡ list_any is_refused (map plain_word body.now) }
{
    for word in body {
        if word.is_punctuator(b"#") || word.is_punctuator(b"##") || word.is_punctuator(b"...") {
            return true;
        }
    }
    false
}

/// The names of the parameters.
fn parameter_names<'s>(
    alloc: Global,
    parameters: &Option<ListBuf<Word<'s>>>,
) -> Result<Option<ListBuf<&'s [u8]>>, AllocError>
    ensures exact { IfOk result (λ names. option_map (map (λ name. name.now)) names ≡ option_map spellings_of (option_map (map plain_word) parameters.now)) }
    ensures memory { OnErr result (IsSome parameters.now) }
{
    match parameters {
        None => Ok(None),
        Some(words) => match texts(alloc, words.as_slice()) {
            Ok(names) => Ok(Some(names)),
            Err(error) => Err(error),
        },
    }
}

/// The texts of the words.
fn texts<'s>(alloc: Global, words: &[Word<'s>]) -> Result<ListBuf<&'s [u8]>, AllocError>
    ensures { IfOk result (λ texts. map (λ text. text.now) texts ≡ spellings_of (map plain_word words.now)) }
{
    let mut texts = ListBuf::of(Vec::new(alloc));
    for word in words {
        texts.push(word.text)?;
    }
    Ok(texts)
}

/// Reads a parameter list after its `(`.
fn read_parameters<'w, 's>(
    alloc: Global,
    words: &'w [Word<'s>],
) -> Result<Parameters<'w, 's>, AllocError>
    ensures { IfOk result (λ found. parameters_read found ≡ parameters_of (map plain_word words.now)) }
{
    match words {
        [close, body @ ..] if close.is_punctuator(b")") => Ok(Parameters::Listed(
            ListBuf::of(Vec::new(alloc)),
            body,
        )),
        _ => read_further(alloc, words),
    }
}

/// Reads a parameter list that isn't empty.
fn read_further<'w, 's>(
    alloc: Global,
    words: &'w [Word<'s>],
) -> Result<Parameters<'w, 's>, AllocError>
    ensures { IfOk result (λ found. parameters_read found ≡ behind_parameters [] (map plain_word words.now)) }
{
    let mut parameters = ListBuf::of(Vec::new(alloc));
    let mut place = 0;
    while place + 2 <= words.len() {
        match read_parameter(&words[place..]) {
            Parameter::Wrong => return Ok(Parameters::Wrong),
            Parameter::Last(word) => {
                parameters.push(word)?;
                return Ok(Parameters::Listed(parameters, &words[place + 2..]));
            }
            Parameter::Further(word) => parameters.push(word)?,
        }
        place += 2;
    }
    Ok(Parameters::Wrong)
}

/// Reads a parameter, and the word after it.
fn read_parameter<'s>(words: &[Word<'s>]) -> Parameter<'s>
    requires { 2 ≤ length words.now }
    ensures { parameter_read result ≡ parameter_of (map plain_word words.now) }
{
    let (word, separator) = (&words[0], &words[1]);
    let named = matches!(word.kind, Kind::Name);
    if separator.is_punctuator(b")") {
        if named || word.is_punctuator(b"...") {
            Parameter::Last(*word)
        } else {
            Parameter::Wrong
        }
    } else if separator.is_punctuator(b",") && named {
        Parameter::Further(*word)
    } else {
        Parameter::Wrong
    }
}
