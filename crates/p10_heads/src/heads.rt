//! All that the roots define: functions, objects outside of functions, and objects of static lifetime in blocks.

ghost use Rattle.std.specs.Prelude.{◌≡◌, ℕ, nat_eq, map};
ghost use Rattle.indexmap.specs.IndexMap.{get};
ghost use Rattle.p10_heads.specs.HeadViews.{plain_head};
ghost use Rattle.p10_heads.specs.private.Numbering.{plain_numbers, numbers_of, block_place};

use crate::block_numbers::block_numbers;
use crate::head::Head;
use crate::numbers::{Numbers, number_by};
use indexmap::IndexMap;
use p10_base::At;
use std::alloc::{AllocError, Global};

/// What the roots define, in program order: that of the roots, and then of the text. The number of a function or an object is its
/// place here. Numbers are found by names in tables, and those of objects in blocks by where their names stand.
#[derive(Drop)]
pub struct Heads<'s> {
    functions: Vec<Head<'s>>,
    objects: Vec<Head<'s>>,
    function_numbers: Numbers<'s>,
    object_numbers: Numbers<'s>,
    /// The numbers of objects in blocks, by the first words of their names.
    blocks: IndexMap<u32, u32>,
    ghost functions_numbered: { plain_numbers function_numbers ≡ numbers_of (map plain_head functions.items) },
    ghost objects_numbered: { plain_numbers object_numbers ≡ numbers_of (map plain_head objects.items) },
    ghost blocks_numbered: { (first : ℕ) → get nat_eq blocks first ≡ block_place first (map plain_head objects.items) },
}

#[tactic(auto, using(crate::proofs::Numbered::numbers_are))]
impl<'s> Heads<'s> {
    ghost use Rattle.std.specs.Prelude.{IfOk};
    ghost use Rattle.p10_heads.specs.Heads.{number_in, number_at};
    ghost use Rattle.p10_heads.specs.PlainHeads.{plain_heads};

    /// What the roots define, with the tables of numbers.
    pub(crate) fn of(
        alloc: Global,
        functions: Vec<Head<'s>>,
        objects: Vec<Head<'s>>,
    ) -> Result<Heads<'s>, AllocError>
        ensures { IfOk result (λ h. plain_heads h ≡ record { functions = map plain_head functions.entry.items; objects = map plain_head objects.entry.items }) }
    {
        let function_numbers = Numbers::of(alloc, &functions)?;
        let object_numbers = Numbers::of(alloc, &objects)?;
        let blocks = block_numbers(alloc, &objects)?;
        Ok(Heads {
            functions,
            objects,
            function_numbers,
            object_numbers,
            blocks,
        })
    }

    /// The functions, by their numbers.
    pub fn functions(&self) -> &[Head<'s>]
        ensures { map plain_head result.now ≡ (plain_heads self.now).functions }
    {
        &self.functions
    }

    /// The objects, by their numbers.
    pub fn objects(&self) -> &[Head<'s>]
        ensures { map plain_head result.now ≡ (plain_heads self.now).objects }
    {
        &self.objects
    }

    /// The number of the function that a name of a root stands for; where none is defined, the number of all functions.
    pub fn function_number(&self, root: u32, internal: bool, name: &[u8]) -> u32
        ensures { result ≡ number_in (plain_heads self.now).functions root internal name.now }
    {
        self.function_numbers.number(root, internal, name)
    }

    /// The number of the object that a name of a root stands for; where none is defined, the number of all objects.
    pub fn object_number(&self, root: u32, internal: bool, name: &[u8]) -> u32
        ensures { result ≡ number_in (plain_heads self.now).objects root internal name.now }
    {
        self.object_numbers.number(root, internal, name)
    }

    /// The number of the object in a block whose name stands at a place; where there is none, the number of all objects.
    pub fn block_number(&self, at: At) -> u32
        ensures { result ≡ number_at (plain_heads self.now).objects at }
    {
        number_by(
            self.block_place(at.first),
            None,
            self.object_numbers.count(),
        )
    }

    /// The number of the first object in a block whose name begins with a word.
    fn block_place(&self, first: u32) -> Option<u32>
        ensures { result ≡ block_place first (map plain_head self.now.objects.items) }
    {
        match self.blocks.get(&first) {
            Some(number) => Some(*number),
            None => None,
        }
    }
}
