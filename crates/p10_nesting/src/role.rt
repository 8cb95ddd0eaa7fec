//! What each word does to the rows of the open levels.

ghost use Rattle.std.specs.Prelude.{◌≡◌, bytes_eq};
ghost use Rattle.std.specs.List.{list_any};
ghost use Rattle.p10_base.specs.Words.{plain_word, plain_words};
ghost use Rattle.p10_nesting.specs.Roles.{byte_role, go_on, kept_names, name_role, punctuator_role, role_of as role_of_word};

use p10_base::{Kind, Word};

/// What a word does to the rows of the open levels.
#[derive(Clone, Copy)]
pub enum Role {
    /// An opening bracket: it opens a level.
    Opens,
    /// `)` or `]`: it closes a level.
    Closes,
    /// `}`: it closes a level, and ends a statement.
    Finishes,
    /// `;`: it ends a statement.
    Ends,
    /// `,`.
    Separates,
    /// `?`.
    Asks,
    /// A word that stays where a row is reduced.
    Keeps,
    /// A string.
    Quotes,
    /// Any other word.
    Stands,
}

impl Role {
    ghost use Rattle.p10_nesting.specs.Roles.{is_closing_role, is_opening_role, is_string_role};

    /// Whether it opens a level.
    pub fn opens(self) -> bool
        ensures { result ≡ is_opening_role self }
    {
        matches!(self, Role::Opens)
    }

    /// Whether it closes a level.
    pub fn closes(self) -> bool
        ensures { result ≡ is_closing_role self }
    {
        matches!(self, Role::Closes | Role::Finishes)
    }

    /// Whether it is a string.
    pub fn is_string(self) -> bool
        ensures { result ≡ is_string_role self }
    {
        matches!(self, Role::Quotes)
    }
}

/// What the word does.
pub fn role_of(word: &Word<'_>) -> Role
    ensures { result ≡ role_of_word (plain_word word.now) }
{
    match word.kind {
        Kind::Punct => punctuator(word.text),
        Kind::Name => name(word.text),
        Kind::Str => Role::Quotes,
        _ => Role::Stands,
    }
}

/// Whether the words begin with `else` or `while`, so that they go on with the statement before them.
pub fn goes_on(words: &[Word<'_>]) -> bool
    ensures { result ≡ go_on (plain_words words.now) }
{
    match words {
        [word, ..] => word.is_name(b"else") || word.is_name(b"while"),
        [] => false,
    }
}

/// What the punctuator does.
fn punctuator(text: &[u8]) -> Role
    ensures { result ≡ punctuator_role text.now }
{
    match text {
        [byte] => one_byte(*byte),
        _ => Role::Stands,
    }
}

/// What the punctuator of one byte does.
fn one_byte(byte: u8) -> Role
    ensures { result ≡ byte_role byte }
{
    if matches!(byte, b'(' | b'[' | b'{') {
        Role::Opens
    } else if matches!(byte, b')' | b']') {
        Role::Closes
    } else if byte == b'}' {
        Role::Finishes
    } else if byte == b';' {
        Role::Ends
    } else if byte == b',' {
        Role::Separates
    } else if byte == b'?' {
        Role::Asks
    } else if byte == b':' {
        Role::Keeps
    } else {
        Role::Stands
    }
}

/// What the name does.
fn name(text: &[u8]) -> Role
    ensures { result ≡ name_role text.now }
{
    if is_kept(text) {
        Role::Keeps
    } else {
        Role::Stands
    }
}

/// Whether the name begins a part of a statement.
fn is_kept(text: &[u8]) -> bool
    ensures { result ≡ list_any (bytes_eq text.now) kept_names }
{
    text == b"if".as_slice()
        || text == b"else".as_slice()
        || text == b"do".as_slice()
        || text == b"while".as_slice()
        || text == b"for".as_slice()
        || text == b"switch".as_slice()
}
