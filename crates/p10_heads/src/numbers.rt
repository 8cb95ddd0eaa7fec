//! The numbers of what the roots define, by names.

ghost use Rattle.std.specs.Prelude.{◌≡◌, ◌+◌, ◌++◌, ◌∷◌, [], map, length, max, IfOk};
ghost use Rattle.p10_bindings.specs.Bound.{bound_in};
ghost use Rattle.p10_bindings.specs.Lookup.{last_bound};
ghost use Rattle.p10_heads.specs.Heads.{number_by};
ghost use Rattle.p10_heads.specs.HeadViews.{plain_head};
ghost use Rattle.p10_heads.specs.private.Firsts.{firsts};
ghost use Rattle.p10_heads.specs.declared.numbers.Whose.TheVariants.{Own};
ghost use Rattle.p10_heads.specs.private.Numbering.{is_meant, number_among, numbers_among, first_numbers, tables_upto, roots_in};

use crate::first_names::declare_first;
use crate::head::Head;
use p10_bindings::Bindings;
use std::alloc::{AllocError, Global};

/// Which definitions are meant. None of them stands in a block.
#[derive(Clone, Copy, Debug, PartialEq, Eq)]
pub(crate) enum Whose {
    /// Those of a root.
    Own(u32),
    /// Those that aren't internal to their roots.
    Shared,
}

/// The numbers of definitions by their names: those of each root, and those that all roots share.
#[derive(Drop)]
pub(crate) struct Numbers<'s> {
    own: Vec<Bindings<'s, u32>>,
    shared: Bindings<'s, u32>,
    /// How many definitions there are.
    count: u32,
}

impl<'s> Numbers<'s> {
    ghost use Rattle.p10_heads.specs.private.Numbering.{plain_numbers, numbers_of, own_number, shared_number, number_from};

    /// The numbers of these definitions.
    pub(crate) fn of(alloc: Global, heads: &[Head<'s>]) -> Result<Numbers<'s>, AllocError>
        ensures { IfOk result (λ n. plain_numbers n ≡ numbers_of (map plain_head heads.now)) }
    {
        let own = own_tables(alloc, heads, roots_in(heads)?)?;
        let shared = table(alloc, Whose::Shared, heads)?;
        let count = count_of(heads)?;
        Ok(Numbers { own, shared, count })
    }

    /// How many definitions there are.
    pub(crate) fn count(&self) -> u32
        ensures { result ≡ (plain_numbers self.now).count }
    {
        self.count
    }

    /// The number of what a root defines by a name.
    fn own_number(&self, root: u32, name: &[u8]) -> Option<u32>
        ensures { result ≡ own_number (plain_numbers self.now) root name.now }
    {
        match self.own.get(root as usize) {
            Some(table) => found_in(table, name),
            None => None,
        }
    }

    /// The number of what all roots share by a name, unless the name is internal.
    fn shared_number(&self, internal: bool, name: &[u8]) -> Option<u32>
        ensures { result ≡ shared_number (plain_numbers self.now) internal name.now }
    {
        if internal {
            None
        } else {
            found_in(&self.shared, name)
        }
    }

    /// The number of what a name of a root stands for; where it isn't defined, that of all.
    pub(crate) fn number(&self, root: u32, internal: bool, name: &[u8]) -> u32
        ensures { result ≡ number_from (plain_numbers self.now) root internal name.now }
    {
        number_by(
            self.own_number(root, name),
            self.shared_number(internal, name),
            self.count,
        )
    }
}

/// The first number, or else the second one, or that of all.
pub(crate) fn number_by(first: Option<u32>, second: Option<u32>, count: u32) -> u32
    ensures { result ≡ number_by first second count }
{
    match first {
        Some(number) => number,
        None => match second {
            Some(number) => number,
            None => count,
        },
    }
}

/// The number that a name stands for in a table.
fn found_in(table: &Bindings<'_, u32>, name: &[u8]) -> Option<u32>
    ensures { result ≡ last_bound name.now (bound_in table.now) }
{
    match table.find(name) {
        Some(number) => Some(*number),
        None => None,
    }
}

/// Whether a definition is meant.
fn is_meant(whose: Whose, head: &Head<'_>) -> bool
    ensures { result ≡ is_meant whose (plain_head head.now) }
{
    match whose {
        Whose::Own(root) => head.root == root && !head.in_block,
        Whose::Shared => !head.in_block && !head.internal,
    }
}

/// Puts down the number of a definition, if it is meant.
fn put_number<'s>(
    whose: Whose,
    number: u32,
    head: &Head<'s>,
    into: &mut Bindings<'s, u32>,
) -> Result<(), AllocError>
    ensures { IfOk result (λ done. bound_in into.new ≡ firsts (bound_in into.old) (number_among whose number (plain_head head.now))) }
{
    if is_meant(whose, head) {
        declare_first(into, head.name, number)
    } else {
        Ok(())
    }
}

/// The numbers of the definitions that are meant, by their names.
fn table<'s>(
    alloc: Global,
    whose: Whose,
    heads: &[Head<'s>],
) -> Result<Bindings<'s, u32>, AllocError>
    ensures { IfOk result (λ t. bound_in t ≡ firsts [] (numbers_among whose 0 (map plain_head heads.now))) }
{
    let mut into = Bindings::new(alloc);
    let mut number: u32 = 0;
    for head in heads {
        put_number(whose, number, head, &mut into)?;
        number = next_number(number)?;
    }
    Ok(into)
}

/// The number after one. There is no room for 2^32 definitions.
pub(crate) fn next_number(number: u32) -> Result<u32, AllocError>
    ensures { IfOk result (λ next. next ≡ number + 1) }
{
    if number == u32::MAX {
        return Err(AllocError);
    }
    Ok(number + 1)
}

/// The numbers of what each root defines, for the first roots.
fn own_tables<'s>(
    alloc: Global,
    heads: &[Head<'s>],
    roots: u32,
) -> Result<Vec<Bindings<'s, u32>>, AllocError>
    ensures { IfOk result (λ tables. map bound_in tables.items ≡ tables_upto roots (map plain_head heads.now)) }
{
    let mut tables = Vec::new(alloc);
    for root in 0..roots {
        put_table(alloc, heads, root, &mut tables)?;
    }
    Ok(tables)
}

/// Puts down the numbers of what a root defines.
#[tactic(auto, using(crate::proofs::ListRows::mapped_more))]
fn put_table<'s>(
    alloc: Global,
    heads: &[Head<'s>],
    root: u32,
    tables: &mut Vec<Bindings<'s, u32>>,
) -> Result<(), AllocError>
    ensures { IfOk result (λ done. map bound_in tables.new.items ≡ map bound_in tables.old.items ++ first_numbers (Own root) (map plain_head heads.now) ∷ []) }
{
    let one = table(alloc, Whose::Own(root), heads)?;
    tables.push(one)?;
    Ok(())
}

/// How many roots there are, as far as definitions say.
fn roots_in(heads: &[Head<'_>]) -> Result<u32, AllocError>
    ensures { IfOk result (λ roots. roots ≡ roots_in (map plain_head heads.now)) }
{
    let mut roots: u32 = 0;
    for head in heads {
        let next = roots_with(head)?;
        roots = greater(roots, next);
    }
    Ok(roots)
}

/// The number of the root after that of a definition.
fn roots_with(head: &Head<'_>) -> Result<u32, AllocError>
    ensures { IfOk result (λ next. next ≡ (plain_head head.now).root + 1) }
{
    next_number(head.root)
}

/// The greater of two numbers.
fn greater(a: u32, b: u32) -> u32
    ensures { result ≡ max a b }
{
    if a < b { b } else { a }
}

/// How many definitions there are. There is no room for 2^32 of them.
#[tactic(auto, using(crate::proofs::ListRows::mapped_length))]
fn count_of(heads: &[Head<'_>]) -> Result<u32, AllocError>
    ensures { IfOk result (λ count. count ≡ length (map plain_head heads.now)) }
{
    let count = heads.len();
    if count > u32::MAX as usize {
        return Err(AllocError);
    }
    Ok(count as u32)
}
