//! A list from which the first element is taken.

ghost use Rattle.std.specs.Prelude.{◌≡◌, ◌∷◌, [], OnOk, MatchOption, reverse, slice_get};

use crate::turned::Full;
use std::alloc::Global;
use std::marker::Model;

/// Items that are taken one after the other.
#[derive(Drop)]
pub struct Queue<T> {
    /// The next item is the last.
    items: Vec<T>,
}

impl<T> Model for Queue<T> {
    ghost use Rattle.std.specs.Prelude.{List, reverse};

    ghost Value = { List T };

    ghost view = { λ q. reverse q.items.items };
}

impl<T: Drop> Queue<T> {
    ghost use Rattle.p10_machine.specs.Nothing.{is_nil};

    /// No items.
    pub fn new(alloc: Global) -> Queue<T>
        ensures { result ≡ [] }
    {
        Queue {
            items: Vec::new(alloc),
        }
    }

    /// These items, the first of them next.
    pub fn of(items: Vec<T>) -> Queue<T>
        ensures { result ≡ items.items }
    {
        let mut items = items;
        items.reverse();
        Queue { items }
    }

    /// Takes all items away.
    pub fn clear(&mut self)
        ensures { self.new ≡ [] }
    {
        self.items.clear();
    }

    /// Puts an item before all others.
    pub fn put_first(&mut self, item: T) -> Result<(), Full>
        ensures { OnOk result (self.new ≡ item ∷ self.old) }
    {
        match self.items.push(item) {
            Ok(()) => Ok(()),
            Err(_) => Err(Full),
        }
    }

    /// Takes the next item.
    pub fn next(&mut self) -> Option<T>
        ensures { MatchOption result ((self.old ≡ []) × (self.new ≡ [])) (λ item. self.old ≡ item ∷ self.new) }
    {
        self.items.pop()
    }

    /// Whether there are no items.
    pub fn is_empty(&self) -> bool
        ensures { result ≡ is_nil self.now }
    {
        self.items.is_empty()
    }
}

impl<T: Copy> Queue<T> {
    /// The item at a place.
    pub fn get(&self, place: usize) -> Option<T>
        ensures { result ≡ slice_get self.now place }
    {
        let count = self.items.len();
        if place < count {
            Some(self.items[count - 1 - place])
        } else {
            None
        }
    }
}
