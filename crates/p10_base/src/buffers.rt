//! A `Vec` and a `String` that contracts see as the list and the text that they hold.

ghost use Rattle.std.specs.Prelude.{◌≡◌, [], ◌∷◌, ◌++◌, OnOk, OnErr, get_or, slice_set};
ghost use Rattle.std.specs.String.{string_bytes};

use std::alloc::{AllocError, Global};
use std::marker::Model;
use std::mem;

/// A `Vec` that contracts see as the list of its elements.
#[derive(Debug, Drop)]
pub struct ListBuf<T> {
    items: Vec<T>,
}

impl<T> Model for ListBuf<T> {
    ghost use Rattle.std.specs.Prelude.{List};
    ghost use Rattle.std.specs.Coded.{coded_list};

    ghost Value = { List T };

    ghost coded = { coded_list T.code };

    ghost view = { λ b. b.items.items };
}

impl<T> ListBuf<T> {
    /// The list of `items`.
    pub fn of(items: Vec<T>) -> ListBuf<T>
        ensures { result ≡ items.items }
    {
        ListBuf { items }
    }

    /// Lends the elements, in their order.
    pub fn as_slice(&self) -> &[T]
        ensures { result.now ≡ self.now }
    {
        self.items.as_slice()
    }

    /// Exchanges the element at a place and `item`; nothing where there is no such place.
    pub fn exchange(&mut self, at: usize, item: &mut T)
        ensures put { self.new ≡ slice_set self.old at item.old }
        ensures taken { item.new ≡ get_or self.old at item.old }
    {
        if at < self.items.len() {
            mem::swap(&mut self.items[at], item);
        }
    }
}

impl<T: Drop> ListBuf<T> {
    /// Puts `item` at the end, or leaves the list as it was where it is out of memory.
    pub fn push(&mut self, item: T) -> Result<(), AllocError>
        ensures ok { OnOk result (self.new ≡ self.old ++ item ∷ []) }
        ensures err { OnErr result (self.new ≡ self.old) }
    {
        self.items.push(item)?;
        Ok(())
    }
}

/// A `String` that contracts see as its bytes.
#[derive(Debug, Drop)]
pub struct TextBuf {
    text: String,
}

impl Model for TextBuf {
    ghost use Rattle.std.specs.Prelude.{List, ℕ};
    ghost use Rattle.std.specs.String.{string_bytes};

    ghost Value = { List ℕ };

    ghost view = { λ t. string_bytes t.text };
}

impl TextBuf {
    /// The text of `text`.
    pub fn of(text: String) -> TextBuf
        ensures { result ≡ string_bytes text }
    {
        TextBuf { text }
    }

    /// Lends the text.
    pub fn as_str(&self) -> &str
        ensures { result.now ≡ self.now }
    {
        self.text.as_str()
    }
}
