//! Declared names in order, of which the last one with a spelling is found by a table.

ghost use Rattle.p10_bindings.specs.private.Links.{IsLinked};

use crate::bound::Bound;
use crate::entry::Entry;
use p10_base::NameList;
use std::alloc::{AllocError, Global};

/// Declared names, each with what it stands for. Each spelling knows its last entry, and each entry the one before it with
/// its spelling.
#[derive(Drop)]
pub struct Bindings<'s, T> {
    spellings: NameList<'s>,
    /// The place of the last entry with each spelling, if one is left.
    last: Vec<Option<usize>>,
    entries: Vec<Entry<'s, T>>,
    ghost linked: { IsLinked spellings last.items entries.items },
}

impl<'s, T: Drop> Bindings<'s, T> {
    ghost use Rattle.std.specs.Prelude.{◌≡◌, [], ◌∷◌, ◌++◌, Some, take, drop, length, option_copied, OnOk, OnErr, IfOk, IfSome, IfNone, slice_get, reverse, ◌-◌};
    ghost use Rattle.p10_base.specs.Names.{place_in};
    ghost use Rattle.p10_bindings.specs.Lookup.{last_bound};
    ghost use Rattle.p10_bindings.specs.Bound.{bound_in, what_at};
    ghost use Rattle.p10_bindings.specs.Taken.{names_of};
    ghost use Rattle.p10_bindings.specs.private.Links.{written};

    /// No names.
    pub fn new(alloc: Global) -> Bindings<'s, T>
        ensures { bound_in result ≡ [] }
    {
        Bindings {
            spellings: NameList::new(alloc),
            last: Vec::new(alloc),
            entries: Vec::new(alloc),
        }
    }

    /// How many names there are.
    pub fn count(&self) -> usize
        ensures { result ≡ length (bound_in self.now) }
    {
        self.entries.len()
    }

    /// What the last declared of the names with this spelling stands for.
    pub fn find(&self, name: &[u8]) -> Option<&T>
        ensures { option_copied result ≡ last_bound name.now (bound_in self.now) }
    {
        match self.spellings.place(name) {
            Some(spelling) => self.what_at(self.last_at(spelling)),
            None => None,
        }
    }

    /// What the last declared of the names with this spelling stands for, without the first `from` names.
    pub fn find_from(&self, from: usize, name: &[u8]) -> Option<&T>
        ensures { option_copied result ≡ last_bound name.now (drop from (bound_in self.now)) }
    {
        match self.spellings.place(name) {
            Some(spelling) => self.what_at(place_from(from, self.last_at(spelling))),
            None => None,
        }
    }

    /// The place of the last entry with a spelling.
    fn last_at(&self, spelling: usize) -> Option<usize>
        ensures { result ≡ written (slice_get self.now.last.items spelling) }
    {
        match self.last.get(spelling) {
            Some(place) => *place,
            None => None,
        }
    }

    /// What an entry stands for, by its place.
    fn what_at(&self, place: Option<usize>) -> Option<&T>
        ensures { option_copied result ≡ what_at self.now.entries.items place }
    {
        match place {
            Some(place) => match self.entries.get(place) {
                Some(entry) => Some(&entry.what),
                None => None,
            },
            None => None,
        }
    }

    /// Declares a name after the others. Out of memory, no name is declared.
    pub fn declare(&mut self, name: &'s [u8], what: T) -> Result<(), AllocError>
        ensures ok { OnOk result (bound_in self.new ≡ bound_in self.old ++ (name.now, what) ∷ []) }
        ensures err { OnErr result (bound_in self.new ≡ bound_in self.old) }
    {
        let spelling = self.spell(name)?;
        let earlier = self.last_at(spelling);
        let place = self.entries.len();
        self.entries.push(Entry {
            name,
            spelling,
            what,
            earlier,
        })?;
        self.last[spelling] = Some(place);
        Ok(())
    }

    /// The place of a spelling, which may be a new one.
    fn spell(&mut self, name: &'s [u8]) -> Result<usize, AllocError>
        ensures entries { self.new.entries.items ≡ self.old.entries.items }
        ensures place { IfOk result (λ place. place_in self.new.spellings name.now ≡ Some place) }
    {
        match self.spellings.place(name) {
            Some(place) => Ok(place),
            None => {
                let count = self.last.len();
                self.last.push(None)?;
                match self.spellings.add(name) {
                    Ok(place) => Ok(place),
                    Err(fault) => {
                        self.last.truncate(count);
                        Err(fault)
                    }
                }
            }
        }
    }

    /// Forgets the names that were declared last, until `count` are left; all stay where there are no more.
    pub fn keep(&mut self, count: usize)
        ensures { bound_in self.new ≡ take count (bound_in self.old) }
    {
        while self.entries.len() > count {
            self.take_last();
        }
    }

    /// Takes out the names that were declared last, until `count` are left, and gives them in the order in which they were
    /// declared. Out of memory they are forgotten.
    pub fn take_from(
        &mut self,
        alloc: Global,
        count: usize,
    ) -> Result<Vec<Bound<'s, T>>, AllocError>
        ensures left { bound_in self.new ≡ take count (bound_in self.old) }
        ensures taken { IfOk result (λ taken. names_of taken.items ≡ drop count (bound_in self.old)) }
    {
        let taken = self.take_back(alloc, count);
        self.keep(count);
        let mut taken = taken?;
        taken.reverse();
        Ok(taken)
    }

    /// Takes out the names after the first `count`, the last one first.
    fn take_back(&mut self, alloc: Global, count: usize) -> Result<Vec<Bound<'s, T>>, AllocError>
        ensures left { take count (bound_in self.new) ≡ take count (bound_in self.old) }
        ensures taken { IfOk result (λ taken. reverse (names_of taken.items) ≡ drop count (bound_in self.old)) }
    {
        let mut taken = Vec::new(alloc);
        while self.entries.len() > count {
            if let Some(bound) = self.take_last() {
                taken.push(bound)?;
            }
        }
        Ok(taken)
    }

    /// Takes out the name that was declared last.
    fn take_last(&mut self) -> Option<Bound<'s, T>>
        ensures left { self.new.entries.items ≡ take (length self.old.entries.items - 1) self.old.entries.items }
        ensures taken { IfSome result (λ b. bound_in self.old ≡ bound_in self.new ++ (b.name.now, b.what) ∷ []) }
        ensures none { IfNone result (length self.old.entries.items ≡ 0) }
    {
        match self.entries.pop() {
            Some(entry) => {
                let Entry {
                    name,
                    spelling,
                    what,
                    earlier,
                } = entry;
                self.last[spelling] = earlier;
                Some(Bound { name, what })
            }
            None => None,
        }
    }
}

ghost use Rattle.std.specs.Prelude.{◌≡◌};
ghost use Rattle.p10_bindings.specs.private.Later.{kept_from};

/// A place, if it isn't before a number.
fn place_from(from: usize, place: Option<usize>) -> Option<usize>
    ensures { result ≡ kept_from from place }
{
    match place {
        Some(place) => { if from <= place { Some(place) } else { None } }
        None => None,
    }
}
