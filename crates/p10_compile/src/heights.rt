//! How many free slots trees need. There is no memory for more than a number of 32 bits counts.

ghost use Rattle.std.specs.Prelude.{◌≡◌, ℕ, ◌+◌, max, map, IfOk};
ghost use Rattle.p10_core.specs.Views.{plain_value, plain_values, plain_place, plain_written, plain_item, plain_initializer};
ghost use Rattle.std.specs.Option.{option_map};
ghost use Rattle.p10_code.specs.ValueCode.{height, values_height, place_height};
ghost use Rattle.p10_code.specs.StatementCode.{written_height, items_height, initializer_height, test_height};

use crate::counts::slot_after;
use p10_core::{Initializer, Item, Place, PlaceForm, Value, ValueForm, Written};
use std::alloc::AllocError;

/// How many free slots a value needs.
#[cycle(heights)]
pub fn height(v: &Value) -> Result<u32, AllocError>
    ensures { IfOk result (λ n. n ≡ height (plain_value v.now)) }
{
    match &v.form {
        ValueForm::Const(_) | ValueForm::Sense(_) => Ok(0),
        ValueForm::Read(place) | ValueForm::Addr(place) | ValueForm::Decay(place) => {
            place_height(place)
        }
        ValueForm::Convert(part) | ValueForm::Cast(part) | ValueForm::Unary(_, part) => {
            height(part)
        }
        ValueForm::Binary(_, a, b) => {
            let left = height(a)?;
            slot_after(2, left.max(height(b)?))
        }
        ValueForm::Logic(_, a, b) => {
            let left = height(a)?;
            slot_after(1, left.max(height(b)?))
        }
        ValueForm::Cond(test, a, b) => {
            let first = height(test)?;
            let left = height(a)?;
            slot_after(1, first.max(left.max(height(b)?)))
        }
        ValueForm::Call(_, _, arguments) => values_height(arguments.as_slice()),
        ValueForm::Builtin(_, _, arguments) => values_height(arguments.as_slice()),
    }
}

/// How many free slots the values of arguments need: each stands in the slot after the one before.
#[cycle(heights)]
fn values_height(values: &[Value]) -> Result<u32, AllocError>
    ensures { IfOk result (λ n. n ≡ values_height (plain_values values.now)) }
{
    let mut most = 0;
    let mut count = 0;
    for v in values {
        let next = slot_after(count, 1)?;
        let top = slot_after(next, height(v)?)?;
        most = top.max(most);
        count = next;
    }
    Ok(count.max(most))
}

/// How many free slots a place needs.
#[cycle(heights)]
pub fn place_height(place: &Place) -> Result<u32, AllocError>
    ensures { IfOk result (λ n. n ≡ place_height (plain_place place.now)) }
{
    match &place.form {
        PlaceForm::Var(_) | PlaceForm::Global(_) | PlaceForm::Literal(_, _) => Ok(0),
        PlaceForm::Index(a, i) => {
            let left = height(a)?;
            slot_after(2, left.max(height(i)?))
        }
        PlaceForm::Member(whole, _) => place_height(whole),
        PlaceForm::Deref(pointer) => height(pointer),
    }
}

/// The slot after an item's, and the slots that its value needs above all before it.
#[derive(Clone, Copy)]
struct Reach {
    next: u32,
    top: u32,
}

/// What an item needs, whose value stands in a slot.
fn reach_of(written: &Written, slot: u32) -> Result<Reach, AllocError>
    ensures { IfOk result (λ r. (most rest : ℕ) → max (max r.top most) (r.next + rest) ≡ max most (slot + written_height (plain_written written.now) rest)) }
{
    match written {
        Written::Scalar(v) => {
            let next = slot_after(slot, 1)?;
            let top = slot_after(next, height(v)?)?;
            Ok(Reach { next, top })
        }
        Written::Text(_) => Ok(Reach { next: slot, top: 0 }),
    }
}

/// How many free slots the items of a list need: each value stands in the slot after the one before.
pub fn items_height(items: &[Item]) -> Result<u32, AllocError>
    ensures { IfOk result (λ n. n ≡ items_height (map plain_item items.now)) }
{
    let mut most = 0;
    let mut count = 0;
    for item in items {
        let reach = reach_of(&item.written, count)?;
        most = reach.top.max(most);
        count = reach.next;
    }
    Ok(count.max(most))
}

/// How many free slots an initialiser needs.
pub fn initializer_height(initializer: &Initializer) -> Result<u32, AllocError>
    ensures { IfOk result (λ n. n ≡ initializer_height (plain_initializer initializer.now)) }
{
    match initializer {
        Initializer::Absent => Ok(0),
        Initializer::Single(v) => slot_after(2, height(v)?),
        Initializer::Copied(place) => slot_after(2, place_height(place)?),
        Initializer::Listed(_, items) => slot_after(1, items_height(items.as_slice())?),
    }
}

/// How many free slots a test needs, if there is one.
pub fn test_height(test: &Option<Value>) -> Result<u32, AllocError>
    ensures { IfOk result (λ n. n ≡ test_height (option_map plain_value test.now)) }
{
    match test {
        None => Ok(0),
        Some(v) => slot_after(1, height(v)?),
    }
}
