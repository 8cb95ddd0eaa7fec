//! What stands in slots.

ghost use Rattle.std.specs.Prelude.{◌≡◌, IfSome};
ghost use Rattle.p10_meaning.specs.declared.pointers.Scalar.TheVariants.{Int, Pointer};
ghost use Rattle.p10_meaning.specs.Pointers.{holding};
ghost use Rattle.p10_meaning.specs.Values.{holds};
ghost use Rattle.p10_machine.specs.Slots.{no_target, held_of};

use p10_meaning::{Ptr, Scalar, Window};

/// What stands in a slot: 16 bytes. Where a pointer points stands beside it, since most slots have none.
#[derive(Clone, Copy, Debug)]
pub enum Slot {
    /// Nothing: the declaration of the variable wasn't executed.
    Absent,
    /// A variable that isn't set.
    Unset,
    /// A number that 64 bits with a sign hold.
    Number(i64),
    /// A number of `unsigned long` above these.
    Large(u64),
    /// The null pointer.
    Null,
    /// A pointer to this position of the array that stands beside it.
    Position(u64),
    /// The number of the object that the variable is.
    Object(u64),
}

/// The array into which a pointer points, and the number of its object.
#[derive(Clone, Copy, Debug)]
pub struct Target {
    pub object: u128,
    pub window: Window,
}

impl Slot {
    ghost use Rattle.std.specs.Prelude.{◌≡◌};
    ghost use Rattle.p10_machine.specs.Slots.{scalar_of};

    /// The scalar in a slot, beside which a target stands.
    #[inline(always)]
    pub fn scalar(self, at: Target) -> Option<Scalar>
        ensures { result ≡ scalar_of at self }
    {
        match self {
            Slot::Number(z) => Some(Scalar::Int(i128::from(z))),
            Slot::Large(n) => Some(Scalar::Int(i128::from(n))),
            Slot::Null => Some(Scalar::Pointer(Ptr::Null)),
            Slot::Position(position) => Some(Scalar::Pointer(Ptr::To {
                object: at.object,
                window: at.window,
                position,
            })),
            Slot::Absent | Slot::Unset | Slot::Object(_) => None,
        }
    }
}

/// What stands in a slot that holds a number: none where 64 bits don't hold it, which no type of C has.
#[inline(always)]
fn number_slot(z: i128) -> Option<Slot>
    ensures { IfSome result (λ slot. (at : Target) → held_of at slot ≡ holds (holding (Int z))) }
{
    if i64::MIN as i128 <= z && z <= i64::MAX as i128 {
        Some(Slot::Number(z as i64))
    } else if 0 <= z && z <= u64::MAX as i128 {
        Some(Slot::Large(z as u64))
    } else {
        None
    }
}

/// Where nothing is noted beside a slot.
pub fn no_target() -> Target
    ensures { result ≡ no_target }
{
    Target {
        object: 0,
        window: Window {
            start: 0,
            stride: 0,
            count: 0,
            inside: true,
            whole: true,
        },
    }
}

/// What stands in a slot that holds a scalar: none for a pointer to a position, since where it points has to stand beside the slot, and
/// for a number that 64 bits don't hold.
#[inline(always)]
pub fn slot_for(x: Scalar) -> Option<Slot>
    ensures { IfSome result (λ slot. (at : Target) → held_of at slot ≡ holds (holding x)) }
{
    match x {
        Scalar::Int(z) => number_slot(z),
        Scalar::Pointer(pointer) => null_slot(pointer),
    }
}

/// What stands in a slot that holds a null pointer: none for another pointer.
#[inline(always)]
fn null_slot(pointer: Ptr) -> Option<Slot>
    ensures { IfSome result (λ slot. (at : Target) → held_of at slot ≡ holds (holding (Pointer pointer))) }
{
    match pointer {
        Ptr::Null => Some(Slot::Null),
        Ptr::To { .. } => None,
    }
}
