//! How high the trees of words can be, which bounds the native stack that walks over them take.

use crate::role::{Role, goes_on, role_of};
use p10_base::Word;
use std::alloc::{AllocError, Global};

/// The greatest height of trees that walks over them bear: with frames of 1 KiB they take half of a
/// stack of 8 MiB. Words nested within the limit M5 come over it only where each of many nested brackets
/// has a long chain of operators after it.
const MOST_HEIGHT: u32 = 4_096;

/// What matters of the row of an open level.
#[derive(Clone, Copy, Debug)]
struct Row {
    /// How many words it has.
    words: u32,
    /// How many of them stay where it is reduced.
    kept: u32,
    /// Whether it has a `?`.
    asks: bool,
    /// The greatest height of the brackets that were closed in it.
    inner: u32,
    /// Its greatest height since its level was opened.
    height: u32,
}

impl Row {
    fn new() -> Row {
        Row {
            words: 0,
            kept: 0,
            asks: false,
            inner: 0,
            height: 0,
        }
    }

    /// The row with its height at this moment taken in.
    fn measured(self) -> Row {
        Row {
            words: self.words,
            kept: self.kept,
            asks: self.asks,
            inner: self.inner,
            height: self.height.max(self.words.saturating_add(self.inner)),
        }
    }

    /// The row with one more word. Strings are leaves, and adjacent ones are one.
    fn added(self, role: Role) -> Row {
        let more: u32 = if role.is_string() { 0 } else { 1 };
        let stays: u32 = if matches!(role, Role::Keeps) { 1 } else { 0 };
        let row = Row {
            words: self.words.saturating_add(more),
            kept: self.kept.saturating_add(stays),
            asks: matches!(role, Role::Asks) || self.asks,
            inner: self.inner,
            height: self.height,
        };
        row.measured()
    }

    /// The row after brackets of this height were closed in it.
    fn closed(self, height: u32) -> Row {
        let row = Row {
            words: self.words,
            kept: self.kept,
            asks: self.asks,
            inner: self.inner.max(height),
            height: self.height,
        };
        row.measured()
    }

    /// The row after a word of this role, where the words after it go on with the statement or not.
    fn settled(self, role: Role, goes_on: bool) -> Row {
        match role {
            Role::Ends | Role::Finishes => {
                if goes_on {
                    self.left_with(self.kept)
                } else {
                    self.left_with(0)
                }
            }
            Role::Separates => {
                if self.asks {
                    self
                } else {
                    self.left_with(self.kept)
                }
            }
            _ => self,
        }
    }

    /// The row where only this many words stay, all of which begin a part of a statement.
    fn left_with(self, kept: u32) -> Row {
        Row {
            words: kept,
            kept,
            asks: false,
            inner: 0,
            height: self.height,
        }
    }
}

/// Whether trees of the words could be too high for walks over them on the native stack.
///
/// The height of a row is the number of its words and the greatest height of the brackets that were closed in it. Rows
/// are reduced and emptied as for the nesting, which alone doesn't bound it: `((x + y) + z) + w` is as high as its
/// chains are long together. It fails only where memory runs out.
pub fn is_too_high(alloc: Global, words: &[Word<'_>]) -> Result<bool, AllocError> {
    let mut outer = Vec::new(alloc);
    let mut row = Row::new();
    let mut rest = words;
    while let [word, others @ ..] = rest {
        let role = role_of(word);
        if role.opens() {
            outer.push(row.added(role))?;
            row = Row::new();
        } else if role.closes() {
            if let Some(around) = outer.pop() {
                row = around.closed(row.height);
            }
        } else {
            row = row.added(role);
        }
        if row.height > MOST_HEIGHT {
            return Ok(true);
        }
        row = row.settled(role, goes_on(others));
        rest = others;
    }
    Ok(false)
}
