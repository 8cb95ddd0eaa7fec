//! Values of options, and files.

ghost use Rattle.std.specs.Prelude.{◌≡◌, ◌++◌, ℕ, Bool, map, IfOk, OnOk, IfSome, IfNone, Some, option_map};
ghost use Rattle.std.specs.List.{list_all};
ghost use Rattle.p10_words.specs.CommandLines.{cut, directories_in, HasFormat, HasNumber, HasForm, HasVersion, IsNumber};
ghost use Rattle.p10_words.specs.private.Scanning.{is_name};
ghost use Rattle.p10_words.specs.private.Deciding.{is_given, is_given_name, has_directories, has_files};

use p10_base::{ListBuf, TextBuf};
use std::alloc::{AllocError, Global};

/// The greatest number that an option may have.
const MOST: u64 = 1_000_000_000_000_000_000;

/// Whether the word is a name: not empty, and without `-` at its beginning.
pub fn names_file(word: &str) -> bool
    ensures { result ≡ is_name word.now }
{
    match word.as_bytes() {
        [] => false,
        [first, ..] => *first != b'-',
    }
}

/// Whether there is a file, and each is a name.
pub fn name_files(words: &[&str]) -> bool
    ensures { result ≡ has_files (map (λ w. w.now) words.now) }
{
    !words.is_empty() && all_name_files(words)
}

/// Whether each word is a name.
fn all_name_files(words: &[&str]) -> bool
    ensures { result ≡ list_all is_name (map (λ w. w.now) words.now) }
{
    let mut rest = words;
    while let [word, others @ ..] = rest {
        if !names_file(word) {
            return false;
        }
        rest = others;
    }
    true
}

/// Whether a value is the name of a file, or isn't given.
pub fn names_given(value: Option<&str>) -> bool
    ensures { result ≡ is_given_name (option_map (λ w. w.now) value.entry) }
{
    match value {
        None => true,
        Some(name) => names_file(name),
    }
}

/// Whether the value of `--include` has directories, or isn't given.
pub fn names_directories(value: Option<&str>) -> bool
    ensures { result ≡ has_directories (option_map (λ w. w.now) value.entry) }
{
    match value {
        None => true,
        Some(value) => names_file(value) && all_name_directories(value),
    }
}

/// Whether each directory in a value is a name.
fn all_name_directories(value: &str) -> bool
    ensures { result ≡ list_all is_name (cut value.now) }
{
    let mut rest = value;
    while let Some((name, others)) = rest.split_once(':') {
        if !names_file(name) {
            return false;
        }
        rest = others;
    }
    names_file(rest)
}

/// The directories in the value of `--include`, none where it isn't given.
pub fn directories(alloc: Global, value: Option<&str>) -> Result<ListBuf<TextBuf>, AllocError>
    ensures { IfOk result (λ found. found ≡ directories_in (option_map (λ w. w.now) value.entry)) }
{
    let mut found = ListBuf::of(Vec::new(alloc));
    if let Some(value) = value {
        push_directories(alloc, value, &mut found)?;
    }
    Ok(found)
}

/// Puts the directories in a value at the end.
fn push_directories(
    alloc: Global,
    value: &str,
    found: &mut ListBuf<TextBuf>,
) -> Result<(), AllocError>
    ensures { OnOk result (found.new ≡ found.old ++ cut value.now) }
{
    let mut rest = value;
    while let Some((name, others)) = rest.split_once(':') {
        found.push(text(alloc, name)?)?;
        rest = others;
    }
    found.push(text(alloc, rest)?)?;
    Ok(())
}

/// The word as an owned text.
pub fn text(alloc: Global, word: &str) -> Result<TextBuf, AllocError>
    ensures { IfOk result (λ t. t ≡ word.now) }
{
    Ok(TextBuf::of(String::from_str(alloc, word)?))
}

/// The words as owned texts.
pub fn texts(alloc: Global, words: &[&str]) -> Result<ListBuf<TextBuf>, AllocError>
    ensures { IfOk result (λ found. found ≡ map (λ w. w.now) words.now) }
{
    let mut found = ListBuf::of(Vec::new(alloc));
    for word in words {
        found.push(text(alloc, word)?)?;
    }
    Ok(found)
}

/// The number of an option, or `standard` where it isn't given; `None` where the value is no number.
pub fn number(value: Option<&str>, standard: u64) -> Option<u64>
    ensures some { IfSome result (HasNumber (option_map (λ w. w.now) value.entry) standard) }
    ensures none { IfNone result ((n : ℕ) → HasNumber (option_map (λ w. w.now) value.entry) standard n → ⊥) }
{
    match value {
        None => Some(standard),
        Some(value) => decimal(value),
    }
}

/// The number whose decimal digits the text is, without a leading zero, at most 10^18.
pub fn decimal(value: &str) -> Option<u64>
    ensures some { IfSome result (IsNumber value.now) }
    ensures none { IfNone result ((n : ℕ) → IsNumber value.now n → ⊥) }
{
    match value.parse::<u64>() {
        Ok(number) => checked(value, number),
        Err(_) => None,
    }
}

/// The number, if the text is its decimal form and it isn't too great.
fn checked(value: &str, number: u64) -> Option<u64>
    ensures some { IfSome result (λ n. (n ≡ number) × IsNumber value.now number) }
    ensures none { IfNone result (IsNumber value.now number → ⊥) }
{
    // `itoa` writes each number in one way, so no other spelling of it passes.
    let mut buffer = itoa::Buffer::new();
    if number <= MOST && buffer.format(number) == value {
        Some(number)
    } else {
        None
    }
}

/// Whether a flag is given, by its value: `clap` makes it `true` then, and else `false`.
pub fn is_given(value: Option<&str>) -> bool
    ensures { result ≡ is_given (option_map (λ w. w.now) value.entry) }
{
    match value {
        Some(value) => value == "true",
        None => false,
    }
}

/// Whether the format that is asked for is JSON; `None` where the value is no format.
pub fn is_json(value: Option<&str>) -> Option<bool>
    ensures some { IfSome result (HasFormat (option_map (λ w. w.now) value.entry)) }
    ensures none { IfNone result ((json : Bool) → HasFormat (option_map (λ w. w.now) value.entry) json → ⊥) }
{
    match value {
        None => Some(false),
        Some(value) => format_named(value),
    }
}

/// Whether the format of this name is JSON; `None` where no format has it.
fn format_named(name: &str) -> Option<bool>
    ensures some { IfSome result (HasFormat (Some name.now)) }
    ensures none { IfNone result ((json : Bool) → HasFormat (Some name.now) json → ⊥) }
{
    if name == "json" {
        Some(true)
    } else if name == "text" {
        Some(false)
    } else {
        None
    }
}

/// The version of a certificate's text, by the value of `--cert-version` and whether `--diff` is given, which exclude each other; `None`
/// where both are given or the value is no version.
pub fn text_version(value: Option<&str>, diff: bool) -> Option<u8>
    ensures some { IfSome result (λ version. HasForm (option_map (λ w. w.now) value.entry) diff version diff) }
    ensures none { IfNone result ((version : ℕ) (looks : Bool) → HasForm (option_map (λ w. w.now) value.entry) diff version looks → ⊥) }
{
    if diff {
        return if value.is_none() { Some(2) } else { None };
    }
    cert_version(value)
}

/// The version of a certificate's text that is asked for; `None` where the value is no version.
fn cert_version(value: Option<&str>) -> Option<u8>
    ensures some { IfSome result (HasVersion (option_map (λ w. w.now) value.entry)) }
    ensures none { IfNone result ((version : ℕ) → HasVersion (option_map (λ w. w.now) value.entry) version → ⊥) }
{
    match value {
        None => Some(1),
        Some(value) => version_named(value),
    }
}

/// The version of this name; `None` where no version has it.
fn version_named(name: &str) -> Option<u8>
    ensures some { IfSome result (HasVersion (Some name.now)) }
    ensures none { IfNone result ((version : ℕ) → HasVersion (Some name.now) version → ⊥) }
{
    if name == "1" {
        Some(1)
    } else if name == "2" {
        Some(2)
    } else {
        None
    }
}
