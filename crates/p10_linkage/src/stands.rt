//! Which structures stand for others, by their numbers (C99 6.2.7).

ghost use Rattle.std.specs.Prelude.{◌≡◌, IfOk};
ghost use Rattle.p10_linkage.specs.private.Reaching.{AreReached};

use crate::reaches::{Reach, part_of, reaches_of, swap_within, widen};
use std::alloc::{AllocError, Global};

/// The number of the structure that stands for each one, and between which places those are for which one stands: where another one comes
/// to stand for these, only places between are looked at.
#[derive(Drop)]
pub struct Stands {
    pub numbers: Vec<u32>,
    reaches: Vec<Reach>,
    ghost reached: { AreReached numbers.items reaches.items },
}

impl Stands {
    ghost use Rattle.std.specs.Prelude.{map};
    ghost use Rattle.p10_linkage.specs.private.Meetings.{swapped};

    /// The structures with these numbers stand.
    pub fn of(alloc: Global, numbers: Vec<u32>) -> Result<Stands, AllocError>
        ensures { IfOk result (λ stands. stands.numbers.items ≡ numbers.items) }
    {
        let reaches = reaches_of(alloc, &numbers)?;
        Ok(Stands { numbers, reaches })
    }

    /// The same once more.
    pub fn copied(&self) -> Result<Stands, AllocError>
        ensures { IfOk result (λ copy. copy.numbers.items ≡ self.now.numbers.items) }
    {
        let alloc = *self.numbers.allocator();
        let numbers = once_more(&self.numbers)?;
        Stands::of(alloc, numbers)
    }

    /// Where one structure stands for others, another one comes to stand.
    pub fn stand_for(&mut self, old: u32, new: u32)
        ensures { self.new.numbers.items ≡ map (swapped old new) self.old.numbers.items }
    {
        let part = part_of(&self.numbers, &self.reaches, old);
        widen(&mut self.reaches, new, part);
        swap_within(&mut self.numbers, part, old, new);
    }
}

/// A list of numbers once more.
fn once_more(numbers: &Vec<u32>) -> Result<Vec<u32>, AllocError>
    ensures { IfOk result (λ copy. copy.items ≡ numbers.now.items) }
{
    numbers.clone()
}
