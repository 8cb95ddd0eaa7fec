//! Names in scope (C99 6.2.1).

use p10_bindings::Bindings;
use p10_syn::{Declarator, Spec, makes_types, name_of};
use std::alloc::{AllocError, Global};
use std::marker::Model;

/// The declared names in scope, the innermost last, each with whether it is a typedef name. Contracts see the list of them.
/// Looking a name up costs as much as it is long, however many names there are.
#[derive(Drop)]
pub struct Scope<'s> {
    names: Bindings<'s, bool>,
}

impl<'s> Model for Scope<'s> {
    ghost use Rattle.std.specs.Prelude.{List, ℕ, Bool};
    ghost use Rattle.p10_bindings.specs.Bound.{bound_in};

    ghost Value = { List (List ℕ × Bool) };

    ghost view = { λ s. bound_in s.names };
}

impl<'s> Scope<'s> {
    ghost use Rattle.std.specs.Prelude.{◌≡◌, [], length, take, map, OnOk, OnErr};
    ghost use Rattle.p10_syn.specs.Scopes.{is_type, with_name};
    ghost use Rattle.p10_syn.specs.Declaring.{after_declarator};
    ghost use Rattle.p10_syn.specs.Trees.{specifier_row};
    ghost use Rattle.p10_syn.specs.Built.{bare_specifier_of, bare_declarator_of};

    /// No names.
    pub fn new(alloc: Global) -> Scope<'s>
        ensures { result ≡ [] }
    {
        Scope {
            names: Bindings::new(alloc),
        }
    }

    /// How many names there are.
    pub fn count(&self) -> usize
        ensures { result ≡ length self.now }
    {
        self.names.count()
    }

    /// Adds a name. Out of memory, none is added.
    pub fn add(&mut self, name: &'s [u8], is_type: bool) -> Result<(), AllocError>
        ensures ok { OnOk result (self.new ≡ with_name self.old is_type name.now) }
        ensures err { OnErr result (self.new ≡ self.old) }
    {
        self.names.declare(name, is_type)
    }

    /// Forgets all but the first names.
    pub fn forget(&mut self, count: usize)
        ensures { self.new ≡ take count self.old }
    {
        self.names.keep(count)
    }

    /// Whether the name is a typedef name: the last of the names with this spelling counts.
    #[tactic(auto, using(crate::proofs::Scoped::types_last))]
    pub fn is_type(&self, name: &[u8]) -> bool
        ensures { result ≡ is_type self.now name.now }
    {
        self.names.find(name).copied().unwrap_or(false)
    }

    /// Puts the name of a declarator after these specifiers into the scope. Out of memory, none is put.
    pub fn declare(
        &mut self,
        specs: &[Spec<'s>],
        declarator: &Declarator<'s>,
    ) -> Result<(), AllocError>
        ensures ok { OnOk result (self.new ≡ after_declarator self.old (specifier_row (map bare_specifier_of specs.now)) (bare_declarator_of declarator.now)) }
        ensures err { OnErr result (self.new ≡ self.old) }
    {
        match name_of(declarator) {
            Some(name) => self.add(name, makes_types(specs)),
            None => Ok(()),
        }
    }
}
