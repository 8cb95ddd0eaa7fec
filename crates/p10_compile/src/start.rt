//! Where the code of a tree begins.

ghost use Rattle.std.specs.Prelude.{◌≡◌, ◌+◌, IfOk};

use crate::counts::{slot_after, step_more};
use std::alloc::AllocError;

/// Where the code of a tree begins: the slot of its scalar, the first free slot, the steps that are owed, and the place of its first
/// operation.
#[derive(Clone, Copy, Debug)]
pub struct Start {
    pub slot: u32,
    pub free: u32,
    pub debt: u64,
    pub at: usize,
}

impl Start {
    /// A tree whose scalar goes to a slot, after which all are free.
    pub fn at_slot(slot: u32, debt: u64, at: usize) -> Result<Start, AllocError>
        ensures { IfOk result (λ s. s ≡ record { slot = slot; free = slot + 1; debt = debt; at = at }) }
    {
        let free = slot_after(slot, 1)?;
        Ok(Start {
            slot,
            free,
            debt,
            at,
        })
    }

    /// The first part of a node, whose step is owed.
    pub fn part(self) -> Result<Start, AllocError>
        ensures { IfOk result (λ s. s ≡ record { slot = self.free; free = self.free + 1; debt = self.debt + 1; at = self.at }) }
    {
        let debt = step_more(self.debt)?;
        Start::at_slot(self.free, debt, self.at)
    }

    /// The only part of a node, whose step is owed: what the node is stands in the slot of its part.
    pub fn own(self) -> Result<Start, AllocError>
        ensures { IfOk result (λ s. s ≡ record { slot = self.slot; free = self.free; debt = self.debt + 1; at = self.at }) }
    {
        let debt = step_more(self.debt)?;
        Ok(Start { debt, ..self })
    }

    /// The second part of a node, where so many steps are owed after the first one.
    pub fn second(self, debt: u64, at: usize) -> Result<Start, AllocError>
        ensures { IfOk result (λ s. s ≡ record { slot = self.free + 1; free = self.free + 2; debt = debt; at = at }) }
    {
        let slot = slot_after(self.free, 1)?;
        let free = slot_after(self.free, 2)?;
        Ok(Start {
            slot,
            free,
            debt,
            at,
        })
    }

    /// A side of a choice: the same slot, where no steps are owed.
    pub fn side(self, at: usize) -> Start
        ensures { result ≡ record { slot = self.slot; free = self.free; debt = 0; at = at } }
    {
        Start {
            debt: 0,
            at,
            ..self
        }
    }
}
