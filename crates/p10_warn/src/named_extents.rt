//! The functions at which objects of file scope are in scope, by the names of the objects.

use p10_base::NameList;
use p10_core::{Extent, Global as StaticObject, Seen};
use std::alloc::{AllocError, Global};

/// The functions at which objects of file scope are in scope, by the names of the objects: those of one name are found in the
/// time that the name is long.
#[derive(Drop)]
pub(crate) struct NamedExtents<'s> {
    names: NameList<'s>,
    groups: Vec<Vec<Extent>>,
    ghost as_many: { length groups.items ≡ length names },
}

ghost use Rattle.std.specs.Prelude.{◌≡◌, length};

impl<'s> NamedExtents<'s> {
    ghost use Rattle.std.specs.Prelude.{◌≡◌, ◌++◌, ◌∷◌, [], if◌then◌else◌, bytes_eq, IfOk, List, ℕ, None, map};
    ghost use Rattle.std.specs.List.{list_any};
    ghost use Rattle.p10_base.specs.Names.{place_in};
    ghost use Rattle.p10_core.specs.Views.{plain_object, plain_seen};
    ghost use Rattle.p10_warn.specs.Scopes.{covers};
    ghost use Rattle.p10_warn.specs.private.NamedExtents.{noted_for, extents_named, extents_outside};

    /// Those of these objects, and of these names that are declared and not defined.
    pub(crate) fn of(
        alloc: Global,
        objects: &[StaticObject<'s>],
        outside: &[Seen<'s>],
    ) -> Result<NamedExtents<'s>, AllocError>
        ensures { IfOk result (λ e. (name : List ℕ) → noted_for e name ≡ extents_named (map plain_object objects.now) name ++ extents_outside (map plain_seen outside.now) name) }
    {
        let mut extents = NamedExtents::of_objects(alloc, objects)?;
        for seen in outside {
            extents.add(alloc, seen.name, seen.visible)?;
        }
        Ok(extents)
    }

    /// Those of these objects.
    fn of_objects(
        alloc: Global,
        objects: &[StaticObject<'s>],
    ) -> Result<NamedExtents<'s>, AllocError>
        ensures { IfOk result (λ e. (name : List ℕ) → noted_for e name ≡ extents_named (map plain_object objects.now) name) }
    {
        let mut extents = NamedExtents::new(alloc);
        for object in objects {
            extents.add_all(alloc, object.name, object.visible.as_slice())?;
        }
        Ok(extents)
    }

    /// None.
    fn new(alloc: Global) -> NamedExtents<'s>
        ensures { (name : List ℕ) → noted_for result name ≡ [] }
    {
        NamedExtents {
            names: NameList::new(alloc),
            groups: Vec::new(alloc),
        }
    }

    /// Whether an object with this name is in scope at the function with a number.
    pub(crate) fn has(&self, name: &[u8], function: usize) -> bool
        ensures { result ≡ list_any (covers function) (noted_for self.now name.now) }
    {
        has_function(self.noted(name), function)
    }

    /// What is noted for a name, in order.
    fn noted(&self, name: &[u8]) -> &[Extent]
        ensures { result.now ≡ noted_for self.now name.now }
    {
        match self.names.place(name) {
            Some(place) => self.groups[place].as_slice(),
            None => &[],
        }
    }

    /// Notes functions for a name.
    fn add_all(&mut self, alloc: Global, name: &'s [u8], all: &[Extent]) -> Result<(), AllocError>
        ensures { IfOk result (λ _. (other : List ℕ) → noted_for self.new other ≡ noted_for self.old other ++ (if bytes_eq name.now other then all.now else [])) }
    {
        for extent in all {
            self.add(alloc, name, *extent)?;
        }
        Ok(())
    }

    /// Notes functions in a row for a name.
    fn add(&mut self, alloc: Global, name: &'s [u8], extent: Extent) -> Result<(), AllocError>
        ensures { IfOk result (λ _. (other : List ℕ) → noted_for self.new other ≡ (if bytes_eq name.now other then noted_for self.old other ++ extent ∷ [] else noted_for self.old other)) }
    {
        match self.names.place(name) {
            Some(group) => {
                self.groups[group].push(extent)?;
                Ok(())
            }
            None => self.begin(alloc, name, extent),
        }
    }

    /// Notes the first functions for a name.
    fn begin(&mut self, alloc: Global, name: &'s [u8], extent: Extent) -> Result<(), AllocError>
        requires new { place_in self.old.names name.now ≡ None }
        ensures { IfOk result (λ _. (other : List ℕ) → noted_for self.new other ≡ (if bytes_eq name.now other then extent ∷ [] else noted_for self.old other)) }
    {
        let count = self.groups.len();
        let mut group = Vec::new(alloc);
        group.push(extent)?;
        self.groups.push(group)?;
        match self.names.add(name) {
            Ok(_) => Ok(()),
            Err(fault) => {
                self.groups.truncate(count);
                Err(fault)
            }
        }
    }
}

ghost use Rattle.std.specs.List.{list_any};
ghost use Rattle.p10_warn.specs.Scopes.{covers};

/// Whether one of the rows has a function among them.
fn has_function(rows: &[Extent], function: usize) -> bool
    ensures { result ≡ list_any (covers function) rows.now }
{
    rows.iter().any(|row| row.from as usize <= function && function < row.to as usize)
}
