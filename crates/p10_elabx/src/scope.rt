//! Scopes: what names stand for in the blocks that are open (C99 6.2.1).

use crate::block::Block;
use crate::named::Named;
use p10_bindings::Bindings;
use p10_core::Types;
use std::alloc::{AllocError, Global};

/// The types that are declared, and the names in the open blocks, each with what it stands for. A tag and another name may
/// be the same word. Looking a name up costs as much as it is long, however many names there are.
#[derive(Drop)]
pub struct Scope<'s> {
    /// The structures that are declared.
    pub types: Types<'s>,
    names: Bindings<'s, Named>,
    tags: Bindings<'s, Named>,
    /// How many names and tags stood where each block inside the outermost one was opened.
    floors: Vec<(usize, usize)>,
}

#[tactic(auto, using(crate::proofs::Bound::found_is, crate::proofs::Bound::as_many, crate::proofs::Bound::one_more))]
impl<'s> Scope<'s> {
    ghost use Rattle.std.specs.Prelude.{◌≡◌, option_map, option_copied, OnOk, OnErr};
    ghost use Rattle.p10_elabx.specs.Innermost.{hidden};
    ghost use Rattle.p10_elabx.specs.Scopes.{empty_scope, entered, declared, named, tagged};
    ghost use Rattle.p10_elabx.specs.Views.{meaning_of};
    ghost use Rattle.p10_elabx.specs.PlainScopes.{plain_scope};

    /// No types, and one open block without names.
    pub fn new(alloc: Global) -> Scope<'s>
        ensures { plain_scope result ≡ empty_scope }
    {
        Scope {
            types: Types::new(alloc),
            names: Bindings::new(alloc),
            tags: Bindings::new(alloc),
            floors: Vec::new(alloc),
        }
    }

    /// Opens a block. Out of memory, nothing is changed.
    pub fn enter(&mut self) -> Result<(), AllocError>
        ensures ok { OnOk result (plain_scope self.new ≡ entered (plain_scope self.old)) }
        ensures err { OnErr result (plain_scope self.new ≡ plain_scope self.old) }
    {
        let floor = (self.names.count(), self.tags.count());
        self.floors.push(floor)?;
        Ok(())
    }

    /// Declares a name in the innermost block. Out of memory, nothing is changed.
    pub fn declare(&mut self, name: &'s [u8], what: Named) -> Result<(), AllocError>
        ensures ok { OnOk result (plain_scope self.new ≡ declared (plain_scope self.old) name.now (meaning_of what)) }
        ensures err { OnErr result (plain_scope self.new ≡ plain_scope self.old) }
    {
        if matches!(&what, Named::Tag(_) | Named::UnknownTag) {
            self.tags.declare(name, what)
        } else {
            self.names.declare(name, what)
        }
    }

    /// Lets a tag name nothing yet in the innermost block. Out of memory, nothing is changed.
    pub fn hide_tag(&mut self, name: &'s [u8]) -> Result<(), AllocError>
        ensures ok { OnOk result (plain_scope self.new ≡ hidden (plain_scope self.old) name.now) }
        ensures err { OnErr result (plain_scope self.new ≡ plain_scope self.old) }
    {
        self.tags.declare(name, Named::Unknown)
    }

    /// What a name stands for that is no tag.
    pub fn named(&self, name: &[u8]) -> Option<&Named>
        ensures { option_map meaning_of (option_copied result) ≡ named (plain_scope self.now) name.now }
    {
        self.names.find(name)
    }

    /// What a tag stands for.
    pub fn tagged(&self, name: &[u8]) -> Option<&Named>
        ensures { option_map meaning_of (option_copied result) ≡ tagged (plain_scope self.now) name.now }
    {
        self.tags.find(name)
    }
}

#[tactic(auto, using(crate::proofs::Innermost::found_here, crate::proofs::Innermost::rest_are, crate::proofs::Bound::kept_are))]
impl<'s> Scope<'s> {
    ghost use Rattle.std.specs.Prelude.{◌≡◌, drop, option_map, option_copied, IfOk};
    ghost use Rattle.p10_bindings.specs.Taken.{names_of};
    ghost use Rattle.p10_elabx.specs.Scopes.{last_floor, left, without_names};
    ghost use Rattle.p10_elabx.specs.Innermost.{named_here, tagged_here, is_outermost};
    ghost use Rattle.p10_elabx.specs.Views.{meaning_of, bindings_of};
    ghost use Rattle.p10_elabx.specs.PlainScopes.{plain_scope};

    /// What a name that is no tag stands for, if it is declared in the innermost block.
    pub fn named_here(&self, name: &[u8]) -> Option<&Named>
        ensures { option_map meaning_of (option_copied result) ≡ named_here (plain_scope self.now) name.now }
    {
        let (names, _) = self.floor();
        self.names.find_from(names, name)
    }

    /// What a tag stands for, if it is declared in the innermost block.
    pub fn tagged_here(&self, name: &[u8]) -> Option<&Named>
        ensures { option_map meaning_of (option_copied result) ≡ tagged_here (plain_scope self.now) name.now }
    {
        let (_, tags) = self.floor();
        self.tags.find_from(tags, name)
    }

    /// Whether no block is open inside the outermost one.
    pub fn is_outermost(&self) -> bool
        ensures { result ≡ is_outermost (plain_scope self.now) }
    {
        match self.floors.last() {
            Some(_) => false,
            None => true,
        }
    }

    /// Closes the innermost block, with all that was declared in it. Where no block is open inside the outermost one, all names go.
    pub fn leave(&mut self)
        ensures { plain_scope self.new ≡ left (plain_scope self.old) }
    {
        let (names, tags) = self.floor();
        self.floors.pop();
        self.names.keep(names);
        self.tags.keep(tags);
    }

    /// Forgets all names and tags, as the next root begins. The types stay.
    pub fn forget_names(&mut self)
        ensures { plain_scope self.new ≡ without_names (plain_scope self.old) }
    {
        self.names.keep(0);
        self.tags.keep(0);
        self.floors.clear();
    }

    /// Closes the innermost block, and gives what was declared in it. Out of memory that is forgotten.
    pub fn close(&mut self, alloc: Global) -> Result<Block<'s>, AllocError>
        ensures left { plain_scope self.new ≡ left (plain_scope self.old) }
        ensures names { IfOk result (λ b. bindings_of (names_of b.names.items) ≡ drop (last_floor (plain_scope self.old).floors).0 (plain_scope self.old).names) }
        ensures tags { IfOk result (λ b. bindings_of (names_of b.tags.items) ≡ drop (last_floor (plain_scope self.old).floors).1 (plain_scope self.old).tags) }
    {
        let (names, tags) = self.floor();
        self.floors.pop();
        let names = self.names.take_from(alloc, names);
        let tags = self.tags.take_from(alloc, tags);
        Ok(Block {
            names: names?,
            tags: tags?,
        })
    }

    /// How many names and tags stood where the innermost block was opened.
    fn floor(&self) -> (usize, usize)
        ensures { result ≡ last_floor (plain_scope self.now).floors }
    {
        match self.floors.last() {
            Some(floor) => *floor,
            None => (0, 0),
        }
    }
}
