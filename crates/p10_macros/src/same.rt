//! Whether two definitions of a macro are the same.

ghost use Rattle.std.specs.Prelude.{◌≡◌, map, length, bytes_eq};
ghost use Rattle.std.specs.List.{list_all, zip};
ghost use Rattle.p10_direct.specs.Form.{plain_macro};
ghost use Rattle.p10_base.specs.Words.{plain_word};
ghost use Rattle.p10_macros.specs.Table as table;

use p10_base::{Kind, Word};
use p10_direct::Macro;

/// Whether two macros have the same parameters and the same replacement list.
pub fn same_macro(this: &Macro<'_, '_>, that: &Macro<'_, '_>) -> bool
    ensures { result ≡ table.same_macro (plain_macro this.now) (plain_macro that.now) }
{
    same_parameters(this, that) && same_words(this.body, that.body)
}

/// Whether both are object-like, or both are function-like with the same parameters.
fn same_parameters(this: &Macro<'_, '_>, that: &Macro<'_, '_>) -> bool
    ensures { result ≡ table.same_parameters (plain_macro this.now).parameters (plain_macro that.now).parameters }
{
    match (&this.params, &that.params) {
        (None, None) => true,
        (Some(these), Some(those)) => same_texts(these.as_slice(), those.as_slice()),
        _ => false,
    }
}

/// Whether the texts are the same.
fn same_texts(these: &[&[u8]], those: &[&[u8]]) -> bool
    ensures { result ≡ table.same_texts (map (λ text. text.now) these.now) (map (λ text. text.now) those.now) }
{
    these.len() == those.len() && each_text(these, those)
}

/// Whether the texts are the same, where there are as many.
fn each_text(these: &[&[u8]], those: &[&[u8]]) -> bool
    requires { length these.now ≡ length those.now }
    ensures { result ≡ list_all (λ pair. bytes_eq pair.0.now pair.1.now) (zip these.now those.now) }
{
    these.iter().zip(those).all(|(this, that)| *this == *that)
}

/// Whether the words are the same by kind and spelling.
fn same_words(these: &[Word<'_>], those: &[Word<'_>]) -> bool
    ensures { result ≡ table.same_words (map plain_word these.now) (map plain_word those.now) }
{
    these.len() == those.len() && each_word(these, those)
}

/// Whether the words are the same, where there are as many.
fn each_word(these: &[Word<'_>], those: &[Word<'_>]) -> bool
    requires { length these.now ≡ length those.now }
    ensures { result ≡ list_all (λ pair. table.same_word (plain_word pair.0) (plain_word pair.1)) (zip these.now those.now) }
{
    these
        .iter()
        .zip(those)
        .all(|(this, that)| same_word(this, that))
}

/// Whether two words have the same kind and spelling.
fn same_word(this: &Word<'_>, that: &Word<'_>) -> bool
    ensures { result ≡ table.same_word (plain_word this.now) (plain_word that.now) }
{
    same_kind(this.kind, that.kind) && this.text == that.text
}

/// Whether two kinds are the same.
fn same_kind(this: Kind, that: Kind) -> bool
    ensures { result ≡ table.same_kind this that }
{
    match (this, that) {
        (Kind::Name, Kind::Name) => true,
        (Kind::Number, Kind::Number) => true,
        (Kind::Char, Kind::Char) => true,
        (Kind::Str, Kind::Str) => true,
        (Kind::Punct, Kind::Punct) => true,
        (Kind::Mark, Kind::Mark) => true,
        _ => false,
    }
}
