//! The words that are left.

ghost use Rattle.std.specs.Prelude.{◌≡◌, option_map, map, drop};
ghost use Rattle.p10_syn.specs.Tokens.{symbol_at};
ghost use Rattle.p10_pexpr.specs.Heads.{is_sign as is_this};
ghost use Rattle.p10_pexpr.specs.Fronts.{first, name_in_front, string_in_front, qualifier_in_front, mark_in_front};

use crate::next::is_qualifier;
use crate::trouble::Trouble;
use p10_syn::{Sign, Token, is_same};
use std::marker::Model;

/// The words that are left. Contracts see the list of what the grammar sees of them.
#[derive(Drop)]
pub struct Cursor<'w, 's> {
    tokens: &'w [Token<'s>],
    place: usize,
}

impl<'w, 's> Model for Cursor<'w, 's> {
    ghost use Rattle.std.specs.Prelude.{List, map, drop};
    ghost use Rattle.p10_syn.specs.Symbols.{Symbol};
    ghost use Rattle.p10_syn.specs.Tokens.{symbol_at};

    ghost Value = { List Symbol };

    ghost view = { λ c. map symbol_at (drop c.place c.tokens.now) };
}

impl<'w, 's> Cursor<'w, 's> {
    ghost use Rattle.std.specs.Prelude.{◌≡◌, [], ◌∷◌, length, drop, map, option_map, Some, None, OnOk, IfSome, IfNone, IfOk};
    ghost use Rattle.std.specs.Result.{IsErrOf};
    ghost use Rattle.p10_syn.specs.Tokens.{symbol_at};
    ghost use Rattle.p10_pexpr.specs.Heads.{heads, expected, name_at};
    ghost use Rattle.p10_pexpr.specs.Fronts.{first, is_none, name_first, string_first, qualifier_first, mark_first};
    ghost use Rattle.p10_pexpr.specs.declared.trouble.Trouble.TheVariants.{Refused};

    /// The words from the first one on.
    pub fn new(tokens: &'w [Token<'s>]) -> Cursor<'w, 's>
        ensures { result ≡ map symbol_at tokens.now }
    {
        Cursor { tokens, place: 0 }
    }

    /// The next word.
    pub fn next(&self) -> Option<Token<'s>>
        ensures { option_map symbol_at result ≡ first self.now }
    {
        if self.place < self.tokens.len() {
            Some(self.tokens[self.place])
        } else {
            None
        }
    }

    /// How many words are left.
    pub fn left(&self) -> usize
        ensures { result ≡ length self.now }
    {
        if self.place < self.tokens.len() {
            self.tokens.len() - self.place
        } else {
            0
        }
    }

    /// Whether no word is left.
    pub fn is_at_end(&self) -> bool
        ensures { result ≡ is_none (first self.now) }
    {
        self.next().is_none()
    }

    /// The word after the next one.
    pub fn second(&self) -> Option<Token<'s>>
        ensures { option_map symbol_at result ≡ first (drop 1 self.now) }
    {
        if self.place < self.tokens.len() {
            at(self.tokens, self.place + 1)
        } else {
            None
        }
    }

    /// Whether the next word is this sign.
    pub fn heads(&self, sign: Sign) -> bool
        ensures { result ≡ heads sign self.now }
    {
        match self.next() {
            Some(token) => is_sign(token, sign),
            None => false,
        }
    }

    /// Whether the word after the next one is this sign.
    pub fn second_is(&self, sign: Sign) -> bool
        ensures { result ≡ heads sign (drop 1 self.now) }
    {
        match self.second() {
            Some(token) => is_sign(token, sign),
            None => false,
        }
    }

    /// Takes the next word.
    pub fn take(&mut self) -> Option<Token<'s>>
        ensures some { IfSome result (λ token. self.old ≡ symbol_at token ∷ self.new) }
        ensures none { IfNone result (self.old ≡ []) }
        ensures after { IfNone result (self.new ≡ self.old) }
    {
        if self.place < self.tokens.len() {
            let token = self.tokens[self.place];
            self.place += 1;
            Some(token)
        } else {
            None
        }
    }

    /// Goes past the next word.
    pub fn advance(&mut self)
        ensures { self.new ≡ drop 1 self.old }
    {
        if self.place < self.tokens.len() {
            self.place += 1;
        }
    }

    /// The next word, where it is a name.
    pub fn next_name(&self) -> Option<&'s [u8]>
        ensures { option_map (λ name. name.now) result ≡ name_first self.now }
    {
        match self.next() {
            Some(token) => name_in(token),
            None => None,
        }
    }

    /// The next word, where it is a string.
    pub fn next_string(&self) -> Option<&'s [u8]>
        ensures { option_map (λ text. text.now) result ≡ string_first self.now }
    {
        match self.next() {
            Some(token) => string_in(token),
            None => None,
        }
    }

    /// The next word, where it is a qualifier.
    pub fn next_qualifier(&self) -> Option<Sign>
        ensures { result ≡ qualifier_first self.now }
    {
        match self.next() {
            Some(token) => qualifier_in(token),
            None => None,
        }
    }

    /// The text of the next word, where it is a p10 pragma.
    pub fn next_mark(&self) -> Option<&'s [u8]>
        ensures { option_map (λ text. text.now) result ≡ mark_first self.now }
    {
        match self.next() {
            Some(token) => mark_in(token),
            None => None,
        }
    }

    /// Takes the next word, which has to be a name.
    pub fn name(&mut self) -> Result<&'s [u8], Trouble>
        ensures ok { IfOk result (λ name. name_at self.old ≡ Some (name.now, self.new)) }
        ensures refused { IsErrOf result Refused → name_at self.old ≡ None }
    {
        let Some(token) = self.take() else {
            return Err(Trouble::Refused);
        };
        match token {
            Token::Name(name) => Ok(name),
            Token::Number(_) => Err(Trouble::Refused),
            Token::Char(_) => Err(Trouble::Refused),
            Token::Str(_) => Err(Trouble::Refused),
            Token::Fixed(_) => Err(Trouble::Refused),
            Token::Mark(_) => Err(Trouble::Refused),
            Token::Other(_) => Err(Trouble::Refused),
        }
    }

    /// Goes past the next word, which has to be this sign.
    pub fn expect(&mut self, sign: Sign) -> Result<(), Trouble>
        ensures ok { OnOk result (expected sign self.old ≡ Some self.new) }
        ensures refused { IsErrOf result Refused → expected sign self.old ≡ None }
    {
        if self.heads(sign) {
            self.advance();
            Ok(())
        } else {
            Err(Trouble::Refused)
        }
    }
}

/// The word at a place.
fn at<'s>(tokens: &[Token<'s>], place: usize) -> Option<Token<'s>>
    ensures { option_map symbol_at result ≡ first (map symbol_at (drop place tokens.now)) }
{
    if place < tokens.len() {
        Some(tokens[place])
    } else {
        None
    }
}

/// Whether a word is this sign.
pub fn is_sign(token: Token<'_>, sign: Sign) -> bool
    ensures { result ≡ is_this sign (symbol_at token.entry) }
{
    match token {
        Token::Fixed(other) => is_same(other, sign),
        _ => false,
    }
}

fn name_in<'s>(token: Token<'s>) -> Option<&'s [u8]>
    ensures { option_map (λ name. name.now) result ≡ name_in_front (symbol_at token.entry) }
{
    match token {
        Token::Name(name) => Some(name),
        _ => None,
    }
}

fn string_in<'s>(token: Token<'s>) -> Option<&'s [u8]>
    ensures { option_map (λ text. text.now) result ≡ string_in_front (symbol_at token.entry) }
{
    match token {
        Token::Str(text) => Some(text),
        _ => None,
    }
}

fn qualifier_in(token: Token<'_>) -> Option<Sign>
    ensures { result ≡ qualifier_in_front (symbol_at token.entry) }
{
    match token {
        Token::Fixed(sign) => { if is_qualifier(sign) { Some(sign) } else { None } }
        _ => None,
    }
}

fn mark_in<'s>(token: Token<'s>) -> Option<&'s [u8]>
    ensures { option_map (λ text. text.now) result ≡ mark_in_front (symbol_at token.entry) }
{
    match token {
        Token::Mark(text) => Some(text),
        _ => None,
    }
}
