//! The macros that are defined.

ghost use Rattle.std.specs.Prelude.{◌≡◌};
ghost use Rattle.p10_macros.specs.Table.{own_of};
ghost use Rattle.p10_macros.specs.Known.{table_among, NamesAreFound};
ghost use Rattle.p10_macros.specs.Undefining.{TakesOneName, TakesOneOwn, StaysNamedOnce};

use crate::kept::{kept_at, put_at};
use crate::known::Known;
use crate::own::{own_if, own_in};
use crate::places::Places;
use crate::same::same_macro;
use p10_direct::Macro;
use std::alloc::{AllocError, Global};
use std::collections::HashMap;

/// What a definition does to the table.
#[derive(Clone, Copy, Debug, PartialEq, Eq)]
pub enum Effect {
    /// The name was not defined, and is now.
    New,
    /// The name was defined in the same way: nothing is changed.
    Same,
    /// The name was defined in another way: nothing is changed.
    Other,
}

/// The macros that are defined, in the order of their definitions. No name stands twice.
#[derive(Drop)]
pub struct Macros<'w, 's> {
    kept: Vec<Option<Known<'w, 's>>>,
    /// The place of each macro among these, by its name.
    places: HashMap<&'s [u8], usize>,
    own: usize,
    ghost placed: { NamesAreFound kept.items places },
    ghost counted: { own ≡ own_of (table_among kept.items) },
}

impl<'w, 's> Macros<'w, 's> {
    ghost use Rattle.std.specs.Prelude.{◌≡◌, [], option_map, option_copied, IfOk, OnOk, OnErr};
    ghost use Rattle.p10_direct.specs.Form.{plain_macro};
    ghost use Rattle.p10_macros.specs.private.KnownMacros.{plain_known};
    ghost use Rattle.p10_macros.specs.Table.{macro_named, with_macro, without_macro, own_of};
    ghost use Rattle.p10_macros.specs.Answers.{table_of, Defines};

    /// A table without macros.
    pub fn new(alloc: Global) -> Macros<'w, 's>
        ensures { table_of result ≡ [] }
    {
        Macros {
            kept: Vec::new(alloc),
            places: HashMap::new(alloc),
            own: 0,
        }
    }

    /// The macro with this name.
    pub fn get(&self, name: &'s [u8]) -> Option<&Macro<'w, 's>>
        ensures { option_map plain_macro (option_copied result) ≡ macro_named name.now (table_of self.now) }
    {
        match self.entry(name) {
            None => None,
            Some(known) => Some(&known.made),
        }
    }

    /// The macro with this name, as the table keeps it.
    pub(crate) fn entry(&self, name: &'s [u8]) -> Option<&Known<'w, 's>>
        ensures { option_map plain_known (option_copied result) ≡ macro_named name.now (table_of self.now) }
    {
        match self.places.get(name) {
            None => None,
            Some(place) => kept_at(self.kept.as_slice(), *place),
        }
    }

    /// How many of the macros no built-in header defined.
    pub fn own(&self) -> usize
        ensures { result ≡ own_of (table_of self.now) }
    {
        self.own
    }

    /// Defines a macro after the others, unless its name is defined. `builtin` says that a built-in header
    /// defines it. Out of memory, the table stays as it was.
    pub fn define(&mut self, made: Macro<'w, 's>, builtin: bool) -> Result<Effect, AllocError>
        ensures ok { IfOk result (λ answer. Defines (table_of self.old) (plain_macro made.entry) builtin answer (table_of self.new)) }
        ensures err { OnErr result (table_of self.new ≡ table_of self.old) }
    {
        match self.get(made.name) {
            None => {
                self.add(made, builtin)?;
                Ok(Effect::New)
            }
            Some(known) => Ok(if same_macro(known, &made) {
                Effect::Same
            } else {
                Effect::Other
            }),
        }
    }

    /// Takes the macro with this name out of the table, if there is one. Its place stays empty, so that no other one is
    /// moved, however many there are.
    pub fn undefine(&mut self, name: &'s [u8])
        ensures { table_of self.new ≡ without_macro (table_of self.old) name.now }
    {
        match self.places.remove(name) {
            None => {}
            Some(place) => {
                let removed = put_at(&mut self.kept, place, None);
                self.own -= own_in(&removed);
            }
        }
    }

    /// Puts a macro whose name isn't defined after the others.
    fn add(&mut self, made: Macro<'w, 's>, builtin: bool) -> Result<(), AllocError>
        requires { macro_named (plain_macro made).name (table_of self.old) ≡ None }
        ensures ok { OnOk result (table_of self.new ≡ with_macro (table_of self.old) (plain_macro made.entry) builtin) }
        ensures err { OnErr result (table_of self.new ≡ table_of self.old) }
    {
        // As the number of macros fits its type, so does that of some of them.
        let place = self.kept.len();
        let own = own_if(builtin);
        let places = Places::of(*self.kept.allocator(), &made)?;
        self.kept.push(None)?;
        self.places.insert(made.name, place)?;
        let known = Known {
            made,
            builtin,
            places,
        };
        let _ = put_at(&mut self.kept, place, Some(known));
        self.own += own;
        Ok(())
    }
}

/// Where a macro is undefined its name is taken away and nothing else, and no name comes to stand twice.
pub fn undefines_one()
    ensures name { TakesOneName }
    ensures own { TakesOneOwn }
    ensures once { StaysNamedOnce }
{}
