//! Declarations with linkage in the order in which they came, found by their names.

ghost use Rattle.std.specs.Prelude.{◌≡◌, List, ℕ, map};
ghost use Rattle.p10_linkage.specs.LinkedViews.{linked_of_name};
ghost use Rattle.p10_linkage.specs.private.Grouping.{group_of, places_named};
ghost use Rattle.p10_linkage.specs.private.Lookups.{name_of, defines};

use crate::groups::Groups;
use crate::linked::LinkedName;
use std::alloc::{AllocError, Global};

/// Declarations with linkage in the order in which they came, found by their names.
#[derive(Drop)]
pub struct LinkedNames<'s> {
    rows: Vec<LinkedName<'s>>,
    /// The places of the declarations of each name.
    all: Groups<'s>,
    /// The places of those that define.
    definitions: Groups<'s>,
    ghost all_named: { (name : List ℕ) → group_of all name ≡ places_named name_of (λ l. true) name 0 (map linked_of_name rows.items) },
    ghost definitions_named: { (name : List ℕ) → group_of definitions name ≡ places_named name_of defines name 0 (map linked_of_name rows.items) },
}

ghost use Rattle.std.specs.Prelude.{true};

impl<'s> LinkedNames<'s> {
    ghost use Rattle.std.specs.Prelude.{[], ◌∷◌, ◌++◌, None, IfOk, option_map, option_copied};
    ghost use Rattle.p10_linkage.specs.LinkedLists.{linked_in};
    ghost use Rattle.p10_linkage.specs.Linkage.{last_linked, is_defined};

    /// No declarations.
    pub fn new(alloc: Global) -> LinkedNames<'s>
        ensures { linked_in result ≡ [] }
    {
        LinkedNames {
            rows: Vec::new(alloc),
            all: Groups::new(alloc),
            definitions: Groups::new(alloc),
        }
    }

    /// The declarations.
    pub fn rows(&self) -> &[LinkedName<'s>]
        ensures { map linked_of_name result.now ≡ linked_in self.now }
    {
        self.rows.as_slice()
    }

    /// A declaration after the others. Out of memory, none is left.
    pub fn add(&mut self, alloc: Global, linked: LinkedName<'s>) -> Result<(), AllocError>
        ensures { IfOk result (λ _. linked_in self.new ≡ linked_in self.old ++ linked_of_name linked.entry ∷ []) }
    {
        add_row(
            alloc,
            &mut self.rows,
            &mut self.all,
            &mut self.definitions,
            linked,
        )
    }

    /// The last declaration of a name in a root.
    pub fn last(&self, root: u32, name: &[u8]) -> Option<&LinkedName<'s>>
        ensures { option_map linked_of_name (option_copied result) ≡ last_linked None root name.now (linked_in self.now) }
    {
        last_of_root(self.rows.as_slice(), self.all.of(name), root)
    }

    /// Whether a name of a root is defined by a body or an initialiser.
    pub fn is_defined(&self, root: u32, name: &[u8]) -> bool
        ensures { result ≡ is_defined root name.now (linked_in self.now) }
    {
        last_of_root(self.rows.as_slice(), self.definitions.of(name), root).is_some()
    }
}

ghost use Rattle.std.specs.Prelude.{◌++◌, ◌∷◌, [], IfOk, Some, None, option_map, option_copied, if◌then◌else◌, length, slice_get, is_ok};
ghost use Rattle.p10_linkage.specs.private.Grouping.{grouped_after, rows_at};
ghost use Rattle.p10_linkage.specs.private.Lookups.{last_in_root, of_root};

/// Puts a declaration after others, and notes its place. Out of memory, none is left.
fn add_row<'s>(
    alloc: Global,
    rows: &mut Vec<LinkedName<'s>>,
    all: &mut Groups<'s>,
    definitions: &mut Groups<'s>,
    linked: LinkedName<'s>,
) -> Result<(), AllocError>
    ensures rows { rows.new.items ≡ (if is_ok result then rows.old.items ++ linked.entry ∷ [] else []) }
    ensures all { (name : List ℕ) → group_of all.new name ≡ (if is_ok result then grouped_after true linked.entry.name.now (length rows.old.items) name (group_of all.old name) else []) }
    ensures definitions { (name : List ℕ) → group_of definitions.new name ≡ (if is_ok result then grouped_after linked.entry.defines linked.entry.name.now (length rows.old.items) name (group_of definitions.old name) else []) }
{
    match put_row(alloc, rows, all, definitions, linked) {
        Ok(()) => Ok(()),
        Err(fault) => {
            rows.clear();
            *all = Groups::new(alloc);
            *definitions = Groups::new(alloc);
            Err(fault)
        }
    }
}

/// Puts a declaration after others, and notes its place. Out of memory, only some of that is done.
fn put_row<'s>(
    alloc: Global,
    rows: &mut Vec<LinkedName<'s>>,
    all: &mut Groups<'s>,
    definitions: &mut Groups<'s>,
    linked: LinkedName<'s>,
) -> Result<(), AllocError>
    ensures rows { IfOk result (λ _. rows.new.items ≡ rows.old.items ++ linked.entry ∷ []) }
    ensures all { IfOk result (λ _. (name : List ℕ) → group_of all.new name ≡ grouped_after true linked.entry.name.now (length rows.old.items) name (group_of all.old name)) }
    ensures definitions { IfOk result (λ _. (name : List ℕ) → group_of definitions.new name ≡ grouped_after linked.entry.defines linked.entry.name.now (length rows.old.items) name (group_of definitions.old name)) }
{
    let place = rows.len();
    all.add(alloc, linked.name, place)?;
    note_where(alloc, definitions, linked.defines, linked.name, place)?;
    rows.push(linked)?;
    Ok(())
}

/// Notes a place for a name, where that is asked for.
pub(crate) fn note_where<'s>(
    alloc: Global,
    groups: &mut Groups<'s>,
    wanted: bool,
    name: &'s [u8],
    place: usize,
) -> Result<(), AllocError>
    ensures { IfOk result (λ _. (other : List ℕ) → group_of groups.new other ≡ grouped_after wanted name.now place other (group_of groups.old other)) }
{
    if wanted {
        groups.add(alloc, name, place)
    } else {
        Ok(())
    }
}

/// The last one of declarations at places that is one of a root.
fn last_of_root<'a, 's>(
    rows: &'a [LinkedName<'s>],
    places: &[usize],
    root: u32,
) -> Option<&'a LinkedName<'s>>
    ensures { option_map linked_of_name (option_copied result) ≡ last_in_root None root (rows_at places.now (map linked_of_name rows.now)) }
{
    for back in 0..places.len() {
        let row = row_of_root(rows, places[places.len() - 1 - back], root);
        if row.is_some() {
            return row;
        }
    }
    None
}

/// The declaration at a place, if it is one of a root.
fn row_of_root<'a, 's>(
    rows: &'a [LinkedName<'s>],
    place: usize,
    root: u32,
) -> Option<&'a LinkedName<'s>>
    ensures { option_map linked_of_name (option_copied result) ≡ of_root root (slice_get (map linked_of_name rows.now) place) }
{
    match rows.get(place) {
        Some(row) => { if row.root == root { Some(row) } else { None } }
        None => None,
    }
}
