//! The machine's state.

ghost use Rattle.std.specs.Prelude.{◌≡◌, IfOk, OnOk, replicate};
ghost use Rattle.p10_meaning.specs.Values.{absent};
ghost use Rattle.p10_code.specs.Machine.{start};
ghost use Rattle.p10_machine.specs.Views.{Around, state_of, config_of};

use crate::outside::Outside;
use crate::slots::{Slot, Target};
use crate::turned::Full;
use std::alloc::Global;

/// What the loop holds itself: the place of the next operation, and the steps that are left.
#[derive(Clone, Copy, Debug)]
pub struct Spot {
    pub pc: usize,
    pub left: u64,
}

/// What a call goes back to: the place after it, where the slots of the caller's frame begin, the slot for the value, and how deep the
/// caller stands.
#[derive(Clone, Copy, Debug)]
pub struct Caller {
    pub pc: usize,
    pub base: u32,
    pub to: u32,
    pub depth: Depth,
}

/// How deep the open call stands: in calls, and in bytes of their frames.
#[derive(Clone, Copy, Debug)]
pub struct Depth {
    pub calls: u64,
    pub bytes: u128,
}

/// The machine, but for what its loop holds itself.
#[derive(Drop)]
pub struct Machine {
    /// The slots of all open frames, one frame after the other.
    pub slots: Vec<Slot>,
    /// Where the pointers in the first of these slots point. A slot past the last has no pointer.
    pub targets: Vec<Target>,
    /// Where the slots of the open frame begin.
    pub base: u32,
    /// What the open calls go back to, the innermost last.
    pub callers: Vec<Caller>,
    /// The numbers of the objects that open blocks have opened, and for each of these blocks how many it has opened.
    pub opened: Vec<u128>,
    pub blocks: Vec<usize>,
    pub depth: Depth,
    pub outside: Outside,
}

impl Machine {
    /// A machine before its run.
    pub fn new(alloc: Global, outside: Outside) -> Result<Machine, Full>
        ensures { IfOk result (λ m. (s : Spot) (io : Around) → config_of s m io ≡ record (start (state_of s.left outside io)) { pc = s.pc }) }
    {
        let mut m = Machine {
            slots: Vec::new(alloc),
            targets: Vec::new(alloc),
            base: 0,
            callers: Vec::new(alloc),
            opened: Vec::new(alloc),
            blocks: Vec::new(alloc),
            depth: Depth { calls: 0, bytes: 0 },
            outside,
        };
        m.add_absent(1)?;
        Ok(m)
    }

    /// The machine is as before its run, with free slots for a constant expression.
    pub fn restart(&mut self, room: u32) -> Result<(), Full>
        ensures { OnOk result ((s : Spot) (io : Around) → config_of s self.new io ≡ record (start (state_of s.left self.old.outside io)) { pc = s.pc; slots = replicate room absent }) }
    {
        self.slots.clear();
        self.targets.clear();
        self.base = 0;
        self.callers.clear();
        self.opened.clear();
        self.blocks.clear();
        self.depth = Depth { calls: 0, bytes: 0 };
        self.add_absent(room)
    }
}
