//! Where the words of a replacement list name parameters, and where they name none.
//!
//! This is found once, when a macro is defined, so that a use of it goes only over the words for which something is
//! put.

ghost use Rattle.std.specs.Prelude.{◌≡◌, length, is_none};
ghost use Rattle.std.specs.List.{All};
ghost use Rattle.p10_macros.specs.private.Places.{places_that, IsBelow, AreByParameter};

use crate::parameters::places_in;
use crate::pending::Traced;
use crate::values::puts_words;
use p10_direct::Macro;
use std::alloc::{AllocError, Global};

/// The places of the words of a replacement list, by the parameters that they name.
#[derive(Drop)]
pub struct Places {
    /// For each word the place of the parameter that it names; none for an object-like macro.
    pub all: Vec<Option<usize>>,
    /// The places of the words that name no parameter, ascending; none for an object-like macro.
    pub own: Vec<usize>,
    /// For each parameter, by its place, the places of the words that name it, ascending.
    pub named: Vec<Vec<usize>>,
    ghost apart: { own.items ≡ places_that is_none 0 all.items },
    ghost by_parameter: { AreByParameter named.items all.items },
    ghost within: { All (IsBelow (length named.items)) all.items },
}

impl Places {
    ghost use Rattle.std.specs.Prelude.{◌≡◌, [], ◌∷◌, ◌++◌, length, is_none, if◌then◌else◌, IfOk, OnOk};
    ghost use Rattle.std.specs.List.{All};
    ghost use Rattle.p10_direct.specs.Form.{plain_macro};
    ghost use Rattle.p10_macros.specs.private.Places.{places_of, places_that, is_put, IsBelow, IsPutInRow};
    ghost use Rattle.p10_macros.specs.private.Traces.{lists_of};
    ghost use Rattle.p10_macros.specs.Uses.{texts_of};

    /// Where the words of a macro's replacement list name its parameters.
    pub fn of(alloc: Global, made: &Macro<'_, '_>) -> Result<Places, AllocError>
        ensures all { IfOk result (λ places. places.all.items ≡ places_of (plain_macro made.now).parameters (plain_macro made.now).body) }
        ensures named { IfOk result (λ places. length places.named.items ≡ length (texts_of (plain_macro made.now).parameters)) }
    {
        let all = places_in(alloc, made)?;
        let count = match &made.params {
            None => 0,
            Some(params) => params.as_slice().len(),
        };
        Places::of_words(alloc, all, count)
    }

    /// The places, in order, of the words for which a use puts something, where the parameters have these values: of
    /// those that name no parameter, and of those that name one whose value has words or is missing.
    pub fn chosen(&self, values: &[Vec<Traced<'_>>]) -> Result<Vec<usize>, AllocError>
        ensures { IfOk result (λ places. places.items ≡ places_that (is_put (lists_of values.now)) 0 self.now.all.items) }
    {
        let mut places = Vec::new(*self.own.allocator());
        places.extend_from_slice(self.own.as_slice())?;
        for (parameter, named) in self.named.iter().enumerate() {
            if puts_words(values, parameter) {
                places.extend_from_slice(named.as_slice())?;
            }
        }
        places.sort()?;
        Ok(places)
    }

    /// The places of words that name these parameters, of which there are `count`.
    fn of_words(alloc: Global, all: Vec<Option<usize>>, count: usize) -> Result<Places, AllocError>
        requires { All (IsBelow count) all.items }
        ensures all { IfOk result (λ places. places.all.items ≡ all.items) }
        ensures named { IfOk result (λ places. length places.named.items ≡ count) }
    {
        let mut own = Vec::new(alloc);
        let mut named = Places::without_words(alloc, count)?;
        for (place, found) in all.iter().enumerate() {
            Places::put(&mut own, &mut named, *found, place)?;
        }
        Ok(Places { all, own, named })
    }

    /// No places for each of `count` parameters.
    fn without_words(alloc: Global, count: usize) -> Result<Vec<Vec<usize>>, AllocError>
        ensures count { IfOk result (λ rows. length rows.items ≡ count) }
        ensures none { IfOk result (λ rows. All (λ row. row.items ≡ []) rows.items) }
    {
        let mut rows = Vec::new(alloc);
        for _ in 0..count {
            rows.push(Vec::new(alloc))?;
        }
        Ok(rows)
    }

    /// Puts a place after the others of the parameter that its word names, or after those of the words that name
    /// none.
    fn put(
        own: &mut Vec<usize>,
        named: &mut Vec<Vec<usize>>,
        found: Option<usize>,
        place: usize,
    ) -> Result<(), AllocError>
        requires { IsBelow (length named.old.items) found }
        ensures own { OnOk result (own.new.items ≡ own.old.items ++ (if is_none found then place ∷ [] else [])) }
        ensures count { OnOk result (length named.new.items ≡ length named.old.items) }
        ensures named { OnOk result (IsPutInRow named.old.items named.new.items found place) }
    {
        match found {
            None => own.push(place)?,
            Some(parameter) => {
                let row = &mut named[parameter];
                row.push(place)?;
            }
        }
        Ok(())
    }
}
