//! Places in a list, by the names of what stands there.

use p10_base::NameList;
use std::alloc::{AllocError, Global};

/// Places in a list, by the names of what stands there: those of one name are found in the time that the name is long.
#[derive(Drop)]
pub struct Groups<'s> {
    names: NameList<'s>,
    places: Vec<Vec<usize>>,
    ghost as_many: { length places.items ≡ length names },
}

ghost use Rattle.std.specs.Prelude.{◌≡◌, length};

impl<'s> Groups<'s> {
    ghost use Rattle.std.specs.Prelude.{◌≡◌, ◌++◌, ◌∷◌, [], if◌then◌else◌, bytes_eq, IfOk, List, ℕ, None};
    ghost use Rattle.p10_base.specs.Names.{place_in};
    ghost use Rattle.p10_linkage.specs.private.Grouping.{group_of};

    /// No places.
    pub fn new(alloc: Global) -> Groups<'s>
        ensures { (name : List ℕ) → group_of result name ≡ [] }
    {
        Groups {
            names: NameList::new(alloc),
            places: Vec::new(alloc),
        }
    }

    /// The places that are noted for a name, in order.
    pub fn of(&self, name: &[u8]) -> &[usize]
        ensures { result.now ≡ group_of self.now name.now }
    {
        match self.names.place(name) {
            Some(place) => self.places[place].as_slice(),
            None => &[],
        }
    }

    /// Notes a place more for a name.
    pub fn add(&mut self, alloc: Global, name: &'s [u8], place: usize) -> Result<(), AllocError>
        ensures { IfOk result (λ _. (other : List ℕ) → group_of self.new other ≡ (if bytes_eq name.now other then group_of self.old other ++ place ∷ [] else group_of self.old other)) }
    {
        match self.names.place(name) {
            Some(group) => {
                self.places[group].push(place)?;
                Ok(())
            }
            None => self.begin(alloc, name, place),
        }
    }

    /// Notes the first place for a name.
    fn begin(&mut self, alloc: Global, name: &'s [u8], place: usize) -> Result<(), AllocError>
        requires new { place_in self.old.names name.now ≡ None }
        ensures { IfOk result (λ _. (other : List ℕ) → group_of self.new other ≡ (if bytes_eq name.now other then place ∷ [] else group_of self.old other)) }
    {
        let count = self.places.len();
        let mut group = Vec::new(alloc);
        group.push(place)?;
        self.places.push(group)?;
        match self.names.add(name) {
            Ok(_) => Ok(()),
            Err(fault) => {
                self.places.truncate(count);
                Err(fault)
            }
        }
    }
}
