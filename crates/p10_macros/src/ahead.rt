//! The words that are still to be looked through.
//!
//! Each word knows the ends of the argument and of the call in which the words after it stand: the next comma or `)`, and
//! the next `)`, that none of these words has in parentheses of its own. So the `)` of a use is found at once, and no word
//! is passed again for each use around it.

ghost use Rattle.std.specs.Prelude.{reverse};
ghost use Rattle.p10_macros.specs.private.Links.{IsLinked};

use crate::pending::{Exits, Pending, Traced};
use std::alloc::{AllocError, Global};

/// The ends before which words stand of which none ends an argument.
const NOWHERE: Exits = Exits {
    argument: 0,
    call: 0,
};

/// The words that are still to be looked through.
#[derive(Drop)]
pub struct Ahead<'s> {
    /// The next one last.
    words: Vec<Pending<'s>>,
    ghost linked: { IsLinked (reverse words.items) },
}

impl<'s> Ahead<'s> {
    ghost use Rattle.std.specs.Prelude.{◌≡◌, ◌+◌, ◌-◌, ◌<◌, ◌++◌, ◌∷◌, [], length, reverse, take, IfNone, IfSome, IfOk, OnOk};
    ghost use Rattle.p10_macros.specs.private.Links.{HasExits, commas, exits_past};
    ghost use Rattle.p10_macros.specs.private.Looking.{opens_on_top};
    ghost use Rattle.p10_macros.specs.private.Putting.{IsPushed};

    /// No words, and room for `count`.
    pub fn with_room(alloc: Global, count: usize) -> Result<Ahead<'s>, AllocError>
        ensures { IfOk result (λ ahead. ahead.words.items ≡ []) }
    {
        Ok(Ahead {
            words: Vec::with_capacity(alloc, count)?,
        })
    }

    /// How many words there are, which is the place of the next one.
    pub fn count(&self) -> usize
        ensures { result ≡ length self.now.words.items }
    {
        self.words.len()
    }

    /// Whether the next word is a `(`.
    pub fn opens_next(&self) -> bool
        ensures { result ≡ opens_on_top (reverse self.now.words.items) }
    {
        match self.words.as_slice() {
            [.., next] => next.traced.word.is_punctuator(b"("),
            [] => false,
        }
    }

    /// Takes the next word.
    pub fn pop(&mut self) -> Option<Pending<'s>>
        ensures none { IfNone result (self.old.words.items ≡ []) }
        ensures some { IfSome result (λ next. self.old.words.items ≡ self.new.words.items ++ next ∷ []) }
    {
        self.words.pop()
    }

    /// Takes the next word, and gives the ends before which the words after it stand.
    pub fn skip(&mut self) -> Exits
        ensures taken { self.new.words.items ≡ take (length self.old.words.items - 1) self.old.words.items }
        ensures exits { HasExits result (reverse self.new.words.items) }
    {
        match self.words.pop() {
            None => NOWHERE,
            Some(next) => next.exits,
        }
    }

    /// Puts a word before the others.
    pub fn push(&mut self, traced: Traced<'s>) -> Result<(), AllocError>
        ensures { OnOk result (IsPushed self.old.words.items self.new.words.items traced.entry) }
    {
        let exits = self.exits();
        self.words.push(Pending { traced, exits })?;
        Ok(())
    }

    /// How many arguments stand before the end of a call, where these are the ends before which the words stand.
    pub fn arguments(&self, exits: Exits) -> usize
        requires exits { HasExits exits (reverse self.now.words.items) }
        requires closed { 0 < exits.call }
        ensures { result ≡ commas 0 (reverse self.now.words.items) + 1 }
    {
        let mut count = 1;
        let mut place = exits.argument;
        while place != exits.call {
            place = self.words[place - 1].exits.argument;
            count += 1;
        }
        count
    }

    /// The ends before which the words stand.
    fn exits(&self) -> Exits
        ensures { HasExits result (reverse self.now.words.items) }
    {
        match self.words.as_slice() {
            [] => NOWHERE,
            [.., next] => if next.traced.word.is_punctuator(b")") {
                Exits {
                    argument: self.count(),
                    call: self.count(),
                }
            } else if next.traced.word.is_punctuator(b",") {
                Exits {
                    argument: self.count(),
                    call: next.exits.call,
                }
            } else if next.traced.word.is_punctuator(b"(") {
                self.exits_after(next.exits.call)
            } else {
                next.exits
            },
        }
    }

    /// The ends before which the words after a place stand; a place that no word has gives none.
    fn exits_after(&self, place: usize) -> Exits
        ensures { result ≡ exits_past (reverse self.now.words.items) place }
    {
        if place == 0 {
            return NOWHERE;
        }
        if place > self.count() {
            return NOWHERE;
        }
        self.words[place - 1].exits
    }
}
