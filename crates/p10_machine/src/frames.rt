//! The slots of frames, calls, and the blocks that open objects. Each of these functions fails only where memory runs out.

ghost use Rattle.std.specs.Prelude.{◌≡◌, ◌+◌, ◌++◌, ◌∷◌, [], ℕ, eqb, if◌then◌else◌, OnOk, length, IfOk, None, get_or, reverse, replicate, slice_set};
ghost use Rattle.p10_meaning.specs.Pointers.{holding};
ghost use Rattle.p10_meaning.specs.Values.{holds, absent};
ghost use Rattle.p10_code.specs.Machine.{on, put, cell_of, or_zero, scalar_in, with_opened, close_block, close_blocks, leave_call};
ghost use Rattle.p10_machine.specs.Blocks.{without_youngest};
ghost use Rattle.p10_machine.specs.Slots.{no_target, held_in, held_of};
ghost use Rattle.p10_machine.specs.Views.{Around, slot_of, config_of};
ghost use Rattle.p10_machine.specs.Turns.{IsDone};

use crate::machine::{Caller, Machine, Spot};
use crate::scalars::pointer_of;
use crate::slots::{Slot, Target, no_target, slot_for};
use crate::turned::{Ending, Full, Turned};
use crate::turning::next;
use p10_compile::Operand;
use p10_meaning::{Ptr, Scalar};

impl Machine {
    ghost use Rattle.p10_code.specs.Machine.{found, value_of};
    ghost use Rattle.p10_compile.specs.Views.{plain_operand};

    /// The scalar in a slot of the open frame, if there is one.
    #[inline(always)]
    pub fn scalar(&self, k: u32) -> Option<Scalar>
        ensures { result ≡ scalar_in (slot_of self.now k) }
    {
        self.scalar_at(self.place(k))
    }

    /// The scalar in a slot, by its number among all, if there is one.
    #[inline(always)]
    pub fn scalar_at(&self, place: usize) -> Option<Scalar>
        ensures { result ≡ scalar_in (get_or (held_in self.now.targets.items self.now.slots.items) place absent) }
    {
        match self.slots.get(place) {
            Some(slot) => slot.scalar(self.target(place)),
            None => None,
        }
    }

    /// Where a pointer in a slot of the open frame points.
    #[inline(always)]
    pub fn target_of(&self, k: u32) -> Target
        ensures { result ≡ get_or self.now.targets.items (self.now.base + k) no_target }
    {
        self.target(self.place(k))
    }

    /// Where a pointer in a slot points.
    #[inline(always)]
    fn target(&self, place: usize) -> Target
        ensures { result ≡ get_or self.now.targets.items place no_target }
    {
        match self.targets.get(place) {
            Some(target) => *target,
            None => no_target(),
        }
    }

    /// The scalar that an operand is, if it is set.
    #[inline(always)]
    pub fn found(&self, a: Operand) -> Option<Scalar>
        ensures { result ≡ found (plain_operand a) (slot_of self.now) }
    {
        match a {
            Operand::Slot(k) => self.scalar(k),
            Operand::Number(z) => Some(Scalar::Int(i128::from(z))),
            Operand::Null => Some(Scalar::Pointer(Ptr::Null)),
        }
    }

    /// The scalar that an operand is.
    #[inline(always)]
    pub fn value(&self, a: Operand) -> Scalar
        ensures { result ≡ value_of (plain_operand a) (slot_of self.now) }
    {
        or_zero(self.found(a))
    }

    /// Puts something in the place of a slot, where there is one.
    #[inline(always)]
    pub fn set(&mut self, place: usize, slot: Slot)
        ensures { (s : Spot) (io : Around) → config_of s self.new io ≡ record (config_of s self.old io) { slots = held_in self.old.targets.items (slice_set self.old.slots.items place slot) } }
    {
        if place >= self.slots.len() {
            return;
        }
        self.slots[place] = slot;
    }

    /// Puts a scalar in a slot, and goes on with the next operation.
    #[inline(always)]
    pub fn put(&mut self, s: Spot, k: u32, x: Scalar) -> Result<Turned, Full>
        ensures { IfOk result (λ t. (io : Around) → IsDone (on (put k (holds (holding x)) (config_of s self.old io))) t self.new io) }
    {
        let place = self.place(k);
        self.hold(place, x)?;
        next(s)
    }

    /// Puts a scalar in the place of a slot, where there is one.
    #[inline(always)]
    fn hold(&mut self, place: usize, x: Scalar) -> Result<(), Full>
        ensures { OnOk result ((s : Spot) (io : Around) → config_of s self.new io ≡ record (config_of s self.old io) { slots = slice_set (config_of s self.old io).slots place (holds (holding x)) }) }
    {
        match slot_for(x) {
            Some(slot) => {
                self.set(place, slot);
                Ok(())
            }
            None => self.hold_pointer(place, x),
        }
    }

    /// Puts a pointer to a position in the place of a slot, where there is one.
    fn hold_pointer(&mut self, place: usize, x: Scalar) -> Result<(), Full>
        ensures { OnOk result ((s : Spot) (io : Around) → config_of s self.new io ≡ record (config_of s self.old io) { slots = slice_set (config_of s self.old io).slots place (holds (holding x)) }) }
    {
        match pointer_of(x) {
            Ptr::Null => Err(Full),
            Ptr::To {
                object,
                window,
                position,
            } => {
                self.aim(place, Target { object, window })?;
                self.set(place, Slot::Position(position));
                Ok(())
            }
        }
    }

    /// Puts a scalar in the place of a slot, where there is one, or unsets it.
    fn hold_or_unset(&mut self, place: usize, x: Option<Scalar>) -> Result<(), Full>
        ensures { OnOk result ((s : Spot) (io : Around) → config_of s self.new io ≡ record (config_of s self.old io) { slots = slice_set (config_of s self.old io).slots place (cell_of x) }) }
    {
        match x {
            Some(x) => self.hold(place, x),
            None => {
                self.set(place, Slot::Unset);
                Ok(())
            }
        }
    }

    /// Notes beside a slot where a pointer in it points. Slots before it that had no pointer get a target that points nowhere.
    fn aim(&mut self, place: usize, target: Target) -> Result<(), Full>
        ensures targets { OnOk result ((i : ℕ) → get_or self.new.targets.items i no_target ≡ (if eqb i place then target else get_or self.old.targets.items i no_target)) }
        ensures same { OnOk result (self.new ≡ record self.old { targets = self.new.targets }) }
    {
        'room: while self.targets.len() <= place {
            match self.targets.push(no_target()) {
                Ok(()) => {}
                Err(_) => return Err(Full),
            }
        }
        self.targets[place] = target;
        Ok(())
    }

    /// What stands in a slot of the open frame: nothing where there is none.
    #[inline(always)]
    pub fn look(&self, k: u32) -> Slot
        ensures { held_of (get_or self.now.targets.items (self.now.base + k) no_target) result ≡ slot_of self.now k }
    {
        match self.slots.get(self.place(k)) {
            Some(slot) => *slot,
            None => Slot::Absent,
        }
    }

    /// A block begins.
    pub fn begin(&mut self) -> Result<(), Full>
        ensures { OnOk result ((s : Spot) (io : Around) → config_of s self.new io ≡ record (config_of s self.old io) { blocks = [] ∷ (config_of s self.old io).blocks }) }
    {
        match self.blocks.push(0) {
            Ok(()) => Ok(()),
            Err(_) => Err(Full),
        }
    }

    /// The innermost block is closed: its objects die, the youngest first.
    pub fn close(&mut self)
        ensures { (s : Spot) (io : Around) → config_of s self.new io ≡ close_block (config_of s self.old io) }
    {
        match self.blocks.pop() {
            Some(count) => self.end_youngest(count),
            None => {}
        }
    }

    /// The youngest objects of open blocks die, so many of them.
    fn end_youngest(&mut self, count: usize)
        ensures { (s : Spot) (io : Around) → config_of s self.new io ≡ without_youngest count (reverse self.old.blocks.items) (reverse self.old.opened.items) (config_of s self.old io) }
    {
        for i in 0..count {
            match self.opened.pop() {
                Some(object) => self.outside.store.end(object),
                None => return,
            }
        }
    }

    /// Blocks are closed, the innermost first.
    pub fn close_all(&mut self, count: u32)
        ensures { (s : Spot) (io : Around) → config_of s self.new io ≡ close_blocks count (config_of s self.old io) }
    {
        for i in 0..count {
            self.close();
        }
    }

    /// Notes that the innermost block has opened an object; without a block nothing is noted.
    pub fn note_opened(&mut self, object: u128) -> Result<(), Full>
        ensures { OnOk result ((s : Spot) (io : Around) → config_of s self.new io ≡ record (config_of s self.old io) { blocks = with_opened object (config_of s self.old io).blocks }) }
    {
        let Some(count) = self.blocks.pop() else {
            return Ok(());
        };
        let Some(more) = count.checked_add(1) else {
            return Err(Full);
        };
        match self.blocks.push(more) {
            Ok(()) => match self.opened.push(object) {
                Ok(()) => Ok(()),
                Err(_) => Err(Full),
            },
            Err(_) => Err(Full),
        }
    }

    /// A call is left with a value or none.
    #[inline(always)]
    pub fn leave(&mut self, s: Spot, x: Option<Scalar>) -> Result<Turned, Full>
        ensures { IfOk result (λ t. (io : Around) → IsDone (leave_call x (config_of s self.old io)) t self.new io) }
    {
        match self.callers.pop() {
            None => Ok(Turned::Off(s.left, Ending::Returned(x))),
            Some(caller) => {
                self.slots.truncate(self.base as usize);
                self.base = caller.base;
                self.depth = caller.depth;
                self.give(caller, s.left, x)
            }
        }
    }

    /// Puts no value in a slot, and goes on with the next operation.
    pub fn put_none(&mut self, s: Spot, k: u32) -> Result<Turned, Full>
        ensures { IfOk result (λ t. (io : Around) → IsDone (on (put k (cell_of None) (config_of s self.old io))) t self.new io) }
    {
        let place = self.place(k);
        self.set(place, Slot::Unset);
        next(s)
    }

    /// One more slot after all others.
    pub fn add(&mut self, slot: Slot) -> Result<(), Full>
        ensures { OnOk result ((s : Spot) (io : Around) → config_of s self.new io ≡ record (config_of s self.old io) { slots = (config_of s self.old io).slots ++ held_of (get_or self.old.targets.items (length self.old.slots.items) no_target) slot ∷ [] }) }
    {
        match self.slots.push(slot) {
            Ok(()) => Ok(()),
            Err(_) => Err(Full),
        }
    }

    /// One more slot after all others, that holds a scalar.
    pub fn add_scalar(&mut self, x: Scalar) -> Result<(), Full>
        ensures { OnOk result ((s : Spot) (io : Around) → config_of s self.new io ≡ record (config_of s self.old io) { slots = (config_of s self.old io).slots ++ holds (holding x) ∷ [] }) }
    {
        match slot_for(x) {
            Some(slot) => self.add(slot),
            None => self.add_pointer(x),
        }
    }

    /// One more slot after all others, that holds a pointer to a position.
    fn add_pointer(&mut self, x: Scalar) -> Result<(), Full>
        ensures { OnOk result ((s : Spot) (io : Around) → config_of s self.new io ≡ record (config_of s self.old io) { slots = (config_of s self.old io).slots ++ holds (holding x) ∷ [] }) }
    {
        match pointer_of(x) {
            Ptr::Null => Err(Full),
            Ptr::To {
                object,
                window,
                position,
            } => {
                let place = self.slots.len();
                self.aim(place, Target { object, window })?;
                self.add(Slot::Position(position))
            }
        }
    }

    /// Free slots after all others.
    pub fn add_absent(&mut self, room: u32) -> Result<(), Full>
        ensures { OnOk result ((s : Spot) (io : Around) → config_of s self.new io ≡ record (config_of s self.old io) { slots = (config_of s self.old io).slots ++ replicate room absent }) }
    {
        for i in 0..room {
            self.add(Slot::Absent)?;
        }
        Ok(())
    }

    /// A value that a call gives, or none, goes to the slot of its caller, in whose frame the machine stands again.
    fn give(&mut self, caller: Caller, left: u64, x: Option<Scalar>) -> Result<Turned, Full>
        ensures { IfOk result (λ t. (io : Around) → IsDone (on (record (config_of (record { pc = caller.pc; left = left }) self.old io) { slots = slice_set (held_in self.old.targets.items self.old.slots.items) (self.old.base + caller.to) (cell_of x) })) t self.new io) }
    {
        let place = self.place(caller.to);
        self.hold_or_unset(place, x)?;
        Ok(Turned::On(Spot {
            pc: caller.pc,
            left,
        }))
    }

    /// The place of a slot of the open frame among all.
    #[inline(always)]
    pub fn place(&self, k: u32) -> usize
        ensures { result ≡ self.now.base + k }
    {
        self.base as usize + k as usize
    }
}

/// A scalar, or 0 where there is none.
#[inline(always)]
pub fn or_zero(x: Option<Scalar>) -> Scalar
    ensures { result ≡ or_zero x }
{
    match x {
        Some(x) => x,
        None => Scalar::Int(0),
    }
}
