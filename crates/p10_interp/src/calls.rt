//! The open calls.

ghost use Rattle.std.specs.Prelude.{◌≡◌, ◌∷◌, ◌++◌, ◌+◌, ◌-◌, ◌<◌, IfSome, vec_len, [], None, IsTrue, OnOk, IfErr, slice_get, option_map, map, length, take, drop, List, reverse};
ghost use Rattle.p10_interp.specs.private.Nothing.{is_nil};
ghost use Rattle.p10_core.specs.Views.{plain_variable};
ghost use Rattle.p10_interp.specs.private.OpenCalls.{IsPlaced, first_own};

use crate::base::{Base, Depth};
use crate::held::Held;
use crate::work::Halt;
use p10_core::{Func, Variable};
use std::alloc::Global;

/// Open calls, the innermost last, with what stands for their variables and with the objects that their blocks opened.
#[derive(Drop)]
pub struct Calls<'p> {
    pub bases: Vec<Base<'p>>,
    pub held: Vec<Held>,
    /// The objects that are open, each after the mark of its block; the outermost block of a call has none.
    pub marks: Vec<Option<u128>>,
}

impl<'p> Calls<'p> {
    ghost use Rattle.p10_interp.specs.private.Tasks.{Open};
    ghost use Rattle.p10_interp.specs.private.Operations.{in_new_block, after_block, with_frame};
    ghost use Rattle.p10_interp.specs.private.Resuming.{depth_of};
    ghost use Rattle.p10_core.specs.Views.{plain_function};
    ghost use Rattle.p10_meaning.specs.Statements.{holding_at};
    ghost use Rattle.p10_interp.specs.declared.base.Base.{Base};
    ghost use Rattle.p10_interp.specs.private.Standing.{held_of};
    ghost use Rattle.p10_interp.specs.private.OpenCalls.{innermost_held, innermost_variables, standing_at, owning, calls_deep, opened_call, holding_next, last_own_of, has_mark_of, TakesOwn, calls_in, IsMarked, IsHeld, HasVariable};

    /// No open call.
    pub fn new(alloc: Global) -> Calls<'p>
        ensures { calls_in result ≡ [] }
    {
        Calls {
            bases: Vec::new(alloc),
            held: Vec::new(alloc),
            marks: Vec::new(alloc),
        }
    }

    /// Whether no call is open.
    pub fn is_idle(&self) -> bool
        ensures { result ≡ is_nil (calls_in self.now) }
    {
        is_nothing(&self.bases)
    }

    /// What stands for a variable of the innermost call.
    pub fn held(&self, variable: u32) -> Option<Held>
        ensures { option_map held_of result ≡ slice_get (innermost_held (calls_in self.now)) variable }
    {
        match self.bases.last() {
            Some(base) => held_at(&self.held, base.held, variable),
            None => None,
        }
    }

    /// What stands for the variables of the innermost call.
    pub fn standing(&self) -> &[Held]
        ensures { map held_of result.now ≡ innermost_held (calls_in self.now) }
    {
        match self.bases.last() {
            Some(base) => from_place(&self.held, base.held),
            None => &[],
        }
    }

    /// The variable of the function of the innermost call with a number.
    pub fn variable(&self, number: u32) -> Option<&'p Variable<'p>>
        ensures { option_map (λ v. plain_variable v.now) result ≡ slice_get (innermost_variables (calls_in self.now)) number }
    {
        match self.bases.last() {
            Some(base) => variable_in(base.function.vars.as_slice(), number),
            None => None,
        }
    }

    /// Something else stands for a variable of the innermost call.
    pub fn set_held(&mut self, variable: u32, held: Held)
        ensures { (f : Open) (calls : List Open) → calls_in self.old ≡ f ∷ calls → calls_in self.new ≡ with_frame f (holding_at f.frame variable (held_of held)) ∷ calls }
    {
        match self.place_of(variable) {
            Some(place) => self.held[place] = held,
            None => {}
        }
    }

    /// A variable of the innermost call is an object that its innermost block opened.
    pub fn stand(&mut self, variable: u32, object: u128) -> Result<(), Halt>
        ensures ok { OnOk result ((f : Open) (calls : List Open) → calls_in self.old ≡ f ∷ calls → calls_in self.new ≡ with_frame f (standing_at f.frame variable object) ∷ calls) }
        ensures err { IfErr result (λ e. e ≡ Halt.Memory) }
    {
        self.set_held(variable, Held::Stands(object));
        self.own(object)
    }

    /// The innermost block has opened an object.
    pub fn own(&mut self, object: u128) -> Result<(), Halt>
        ensures ok { OnOk result ((f : Open) (calls : List Open) → calls_in self.old ≡ f ∷ calls → calls_in self.new ≡ with_frame f (owning f.frame object) ∷ calls) }
        ensures err { IfErr result (λ e. e ≡ Halt.Memory) }
    {
        if self.has_marks() {
            self.mark(Some(object))
        } else {
            Err(Halt::Memory)
        }
    }

    /// How deep calls are nested.
    pub fn depth(&self) -> Depth
        ensures { calls_deep result ≡ depth_of (calls_in self.now) }
    {
        match self.bases.last() {
            Some(base) => Depth {
                calls: base.calls,
                bytes: base.bytes,
            },
            None => Depth { calls: 0, bytes: 0 },
        }
    }

    /// A call of a function is opened, with a depth that has its frame. Nothing stands for its variables yet.
    pub fn open(&mut self, function: &'p Func<'p>, depth: Depth) -> Result<(), Halt>
        ensures ok { OnOk result (calls_in self.new ≡ opened_call (plain_function function.now) (calls_deep depth) ∷ calls_in self.old) }
        ensures err { IfErr result (λ e. e ≡ Halt.Memory) }
    {
        let base = Base {
            function,
            calls: depth.calls,
            bytes: depth.bytes,
            held: self.held.len(),
            marks: self.marks.len(),
        };
        match self.bases.push(base) {
            Ok(()) => Ok(()),
            Err(_) => Err(Halt::Memory),
        }
    }

    /// This stands for the next variable of the innermost call.
    pub fn hold(&mut self, held: Held) -> Result<(), Halt>
        ensures ok { OnOk result ((f : Open) (calls : List Open) → calls_in self.old ≡ f ∷ calls → calls_in self.new ≡ with_frame f (holding_next f.frame (held_of held)) ∷ calls) }
        ensures err { IfErr result (λ e. e ≡ Halt.Memory) }
    {
        if self.has_held() {
            self.put_held(held)
        } else {
            Err(Halt::Memory)
        }
    }

    /// Puts what stands for a variable after all others.
    fn put_held(&mut self, held: Held) -> Result<(), Halt>
        ensures marks { self.new.marks.items ≡ self.old.marks.items }
        ensures bases { self.new.bases.items ≡ self.old.bases.items }
        ensures ok { OnOk result (self.new.held.items ≡ self.old.held.items ++ held ∷ []) }
        ensures err { IfErr result (λ e. e ≡ Halt.Memory) }
    {
        match self.held.push(held) {
            Ok(()) => Ok(()),
            Err(_) => Err(Halt::Memory),
        }
    }

    /// Whether what stands for the variables of the innermost call is there, as always.
    fn has_held(&self) -> bool
        ensures { IsTrue result → IsHeld self.now }
    {
        match self.bases.last() {
            Some(base) => base.held <= self.held.len(),
            None => false,
        }
    }

    /// Takes the object that the innermost block opened last; none where it has opened none.
    pub fn take_own(&mut self) -> Option<u128>
        ensures taken { (f : Open) (calls : List Open) → calls_in self.old ≡ f ∷ calls → TakesOwn f calls result (calls_in self.new) }
        ensures less { IfSome result (λ object. vec_len self.new.marks < vec_len self.old.marks) }
    {
        match self.last_own() {
            Some(object) => {
                self.drop_mark();
                Some(object)
            }
            None => None,
        }
    }

    /// The object that the innermost block opened last.
    fn last_own(&self) -> Option<u128>
        ensures { result ≡ last_own_of (reverse self.now.bases.items) self.now.marks.items }
    {
        match self.bases.last() {
            Some(base) => last_from(&self.marks, base.marks),
            None => None,
        }
    }

    /// The last of the marks is taken away.
    fn drop_mark(&mut self)
        ensures held { self.new.held.items ≡ self.old.held.items }
        ensures bases { self.new.bases.items ≡ self.old.bases.items }
        ensures marks { self.new.marks.items ≡ take (length self.old.marks.items - 1) self.old.marks.items }
    {
        self.marks.pop();
    }

    /// The innermost block is left, whose objects are dead.
    #[inline(always)]
    pub fn leave_block(&mut self)
        ensures { (f : Open) (calls : List Open) → calls_in self.old ≡ f ∷ calls → f.frame.opened ≡ [] → calls_in self.new ≡ after_block f ∷ calls }
    {
        if self.has_mark() {
            self.drop_mark();
        }
    }

    /// Whether the innermost call has a mark.
    fn has_mark(&self) -> bool
        ensures { result ≡ has_mark_of (reverse self.now.bases.items) (length self.now.marks.items) }
    {
        match self.bases.last() {
            Some(base) => base.marks < self.marks.len(),
            None => false,
        }
    }

    /// The innermost call is left, whose objects are dead.
    pub fn leave(&mut self)
        ensures { (f : Open) (calls : List Open) → calls_in self.old ≡ f ∷ calls → calls_in self.new ≡ calls }
    {
        match self.bases.pop() {
            Some(base) => {
                self.held.truncate(base.held);
                self.marks.truncate(base.marks);
            }
            None => {}
        }
    }

    /// Where what stands for a variable of the innermost call is, among all.
    fn place_of(&self, variable: u32) -> Option<usize>
        ensures here { (b : Base) (bases : List Base) → reverse self.now.bases.items ≡ b ∷ bases → HasVariable b (length self.now.held.items) variable result }
        ensures within { IfSome result (λ place. place < vec_len self.now.held) }
    {
        match self.bases.last() {
            Some(base) => place_in(base.held, variable, self.held.len()),
            None => None,
        }
    }

    /// A block is entered.
    #[inline(always)]
    pub fn enter_block(&mut self) -> Result<(), Halt>
        ensures ok { OnOk result ((f : Open) (calls : List Open) → calls_in self.old ≡ f ∷ calls → calls_in self.new ≡ in_new_block f ∷ calls) }
        ensures err { IfErr result (λ e. e ≡ Halt.Memory) }
    {
        if self.has_marks() {
            self.mark(None)
        } else {
            Err(Halt::Memory)
        }
    }

    /// Puts a mark after all others.
    #[inline(always)]
    fn mark(&mut self, mark: Option<u128>) -> Result<(), Halt>
        ensures held { self.new.held.items ≡ self.old.held.items }
        ensures bases { self.new.bases.items ≡ self.old.bases.items }
        ensures ok { OnOk result (self.new.marks.items ≡ self.old.marks.items ++ mark ∷ []) }
        ensures err { IfErr result (λ e. e ≡ Halt.Memory) }
    {
        match self.marks.push(mark) {
            Ok(()) => Ok(()),
            Err(_) => Err(Halt::Memory),
        }
    }

    /// Whether the marks of the innermost call are there, as always.
    fn has_marks(&self) -> bool
        ensures { IsTrue result → IsMarked self.now }
    {
        match self.bases.last() {
            Some(base) => base.marks <= self.marks.len(),
            None => false,
        }
    }
}

/// Whether there is nothing.
fn is_nothing<T>(items: &[T]) -> bool
    ensures { result ≡ is_nil (reverse items.now) }
{
    items.is_empty()
}

/// What stands for a variable where those of its call begin at a place.
fn held_at(held: &[Held], from: usize, variable: u32) -> Option<Held>
    ensures { result ≡ slice_get held.now (from + variable) }
{
    let place = from as u128 + variable as u128;
    if place < held.len() as u128 {
        Some(held[place as usize])
    } else {
        None
    }
}

/// What stands from a place on.
fn from_place(held: &[Held], from: usize) -> &[Held]
    ensures { result.now ≡ drop from held.now }
{
    if from < held.len() {
        &held[from..]
    } else {
        &[]
    }
}

/// The variable with a number.
fn variable_in<'p>(variables: &'p [Variable<'p>], number: u32) -> Option<&'p Variable<'p>>
    ensures { option_map (λ v. plain_variable v.now) result ≡ slice_get (map plain_variable variables.now) number }
{
    variables.get(number as usize)
}

/// The place of a variable where those of its call begin at a place, if it is one of the first `most`.
fn place_in(from: usize, variable: u32, most: usize) -> Option<usize>
    ensures { IsPlaced from most variable result }
{
    let place = from as u128 + variable as u128;
    if place < most as u128 {
        Some(place as usize)
    } else {
        None
    }
}

/// The object that the last mark from a place on is; none where no mark stands there, or that of a block.
fn last_from(marks: &[Option<u128>], from: usize) -> Option<u128>
    ensures { result ≡ first_own (reverse (drop from marks.now)) }
{
    if from < marks.len() {
        marks[marks.len() - 1]
    } else {
        None
    }
}
