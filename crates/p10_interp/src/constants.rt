//! Constant expressions in the initialisers of objects of static lifetime (C99 6.6, 6.7.8p4).

ghost use Rattle.std.specs.Prelude.{◌≡◌, [], List, true, slice_get, map, length, OnOk, IfOk};
ghost use Rattle.std.specs.List.{All};
ghost use Rattle.p10_core.specs.Addresses.{is_static_value};
ghost use Rattle.p10_core.specs.Types.{plain_type, bare};
ghost use Rattle.p10_core.specs.Sizes.{scalars_of};
ghost use Rattle.p10_core.specs.Typed.{PlainItem};
ghost use Rattle.p10_core.specs.Views.{plain_program, plain_types, plain_value, plain_item, plain_initializer};
ghost use Rattle.p10_core.specs.WholePrograms.{AreWholeStructures, IsStaticInitializer, IsStaticWritten};
ghost use Rattle.p10_meaning.specs.Scalars.{zero_of, zero_cells};
ghost use Rattle.p10_meaning.specs.Values.{evaluate, scalars};
ghost use Rattle.p10_meaning.specs.Statements.{listed_scalars};
ghost use Rattle.p10_meaning.specs.Opening.{constant_setting, constant_state, constant_scalars, initial_cells, listed_cells};
ghost use Rattle.p10_interp.specs.private.Views.{tasks_in};
ghost use Rattle.p10_interp.specs.private.Operations.{scalars_of_items};
ghost use Rattle.p10_interp.specs.private.OpenCalls.{calls_in};
ghost use Rattle.p10_interp.specs.private.Machines.{state_of};
ghost use Rattle.p10_interp.specs.private.Listing.{IsAhead, IsListedFrom};
ghost use Rattle.p10_interp.specs.private.Releasing.{PutsAt};
ghost use Rattle.p10_interp.specs.private.Constants.{nothing_around, IsConstantState, value_given, given_or, scalars_if, is_ended, IsOutside};

use crate::allocating::{put_cell, put_zeros_of_one};
use crate::arguments::take_arguments;
use crate::base::Depth;
use crate::kinds::kind_at;
use crate::listed::{Listed, count_of_items, list, passed, scalar_for};
use crate::outside::Outside;
use crate::queue::Queue;
use crate::running::run;
use crate::stacks::Stacks;
use crate::widths::width_of;
use crate::work::{Flow, Halt, ValueStep, Work};
use p10_core::{CType, Global as StaticObject, Initializer, Item, Program, TypeForm, Types, Value};
use p10_meaning::{Cell, Ptr, Scalar};
use std::alloc::Global;

/// The cells that an object of static lifetime begins with: those of its initialiser, all others zero or null (C99 6.7.8p10).
pub fn put_initial<'p>(
    alloc: Global,
    p: &'p Program<'p>,
    object: &'p StaticObject<'p>,
    outside: &mut Outside,
    cells: &mut Vec<Cell>,
) -> Result<(), Halt>
    requires structures { AreWholeStructures (plain_types p.now.types) }
    requires constant { IsStaticInitializer (plain_initializer object.now.init) }
    requires zero { IsConstantState (plain_program p.now) (state_of outside.old nothing_around) }
    ensures cells { OnOk result (cells.new.items ≡ initial_cells (plain_program p.now) (plain_type object.now.ty) (plain_initializer object.now.init)) }
    ensures zero { OnOk result (IsConstantState (plain_program p.now) (state_of outside.new nothing_around)) }
{
    match &object.init {
        Initializer::Single(value) => {
            let given = constant(alloc, p, value, outside)?;
            cells.clear();
            put_cell(given_or_zero(given, &object.ty), cells)
        }
        Initializer::Listed(_, items) => {
            put_listed(alloc, p, &object.ty, items.as_slice(), outside, cells)
        }
        Initializer::Absent => put_zeros_of(&p.types, &object.ty, cells),
        Initializer::Copied(_) => put_zeros_of(&p.types, &object.ty, cells),
    }
}

/// The cells of an object of a type, zero or null.
pub fn put_zeros_of(types: &Types<'_>, t: &CType, cells: &mut Vec<Cell>) -> Result<(), Halt>
    requires structures { AreWholeStructures (plain_types types.now) }
    ensures { OnOk result (cells.new.items ≡ zero_cells (scalars_of (plain_types types.now) (bare (plain_types types.now) (plain_type t.now)))) }
{
    let Some(scalars) = width_of(types, t) else {
        return Err(Halt::Memory);
    };
    cells.clear();
    put_zeros_of_one(types, t, scalars, cells)
}

/// What a constant expression gives; 0 or null where it is undefined.
fn given_or_zero(given: Option<Scalar>, t: &CType) -> Scalar
    ensures { result ≡ given_or given (zero_of (plain_type t.now)) }
{
    match given {
        Some(x) => x,
        None => match &t.form {
            TypeForm::Pointer(_) => Scalar::Pointer(Ptr::Null),
            _ => Scalar::Int(0),
        },
    }
}

/// What a constant expression gives; none where it is undefined.
fn constant<'p>(
    alloc: Global,
    p: &'p Program<'p>,
    value: &'p Value,
    outside: &mut Outside,
) -> Result<Option<Scalar>, Halt>
    requires structures { AreWholeStructures (plain_types p.now.types) }
    requires constant { is_static_value (plain_value value.now) ≡ true }
    requires zero { IsConstantState (plain_program p.now) (state_of outside.old nothing_around) }
    ensures value { IfOk result (λ given. given ≡ value_given (evaluate (constant_setting (plain_program p.now)) [] (plain_value value.now) (constant_state (plain_program p.now)))) }
    ensures zero { OnOk result (IsConstantState (plain_program p.now) (state_of outside.new nothing_around)) }
{
    let mut stacks = outside_functions(alloc, p)?;
    stacks.tasks.push(Work::Value(ValueStep::Evaluate, value))?;
    outside.left = u64::MAX;
    match run(p, Flow::Normal, &mut stacks, outside) {
        Ok(_) => match stacks.operands.pop_value() {
            Some(x) => Ok(Some(x)),
            None => Err(Halt::Memory),
        },
        Err(halt) => if is_ended(halt) {
            Ok(None)
        } else {
            Err(Halt::Memory)
        },
    }
}

/// Whether a run ended by itself, and not because it ran out of steps or memory.
fn is_ended(halt: Halt) -> bool
    ensures { result ≡ is_ended halt }
{
    match halt {
        Halt::Failed(_) => true,
        Halt::Undefined(_, _) => true,
        Halt::Spent => false,
        Halt::Memory => false,
    }
}

/// Stacks for what stands outside of functions: a call is open that has no variables.
fn outside_functions<'p>(alloc: Global, p: &'p Program<'p>) -> Result<Stacks<'p>, Halt>
    ensures { IfOk result (λ s. IsOutside (tasks_in s.tasks) s.operands (calls_in s.calls)) }
{
    let mut stacks = Stacks::new(alloc);
    match p.functions.as_slice().get(p.main as usize) {
        Some(function) => {
            stacks.calls.open(function, Depth { calls: 0, bytes: 0 })?;
            Ok(stacks)
        }
        None => Err(Halt::Memory),
    }
}

/// The cells that a list of constant expressions gives to an object.
fn put_listed<'p>(
    alloc: Global,
    p: &'p Program<'p>,
    t: &CType,
    items: &'p [Item],
    outside: &mut Outside,
    cells: &mut Vec<Cell>,
) -> Result<(), Halt>
    requires structures { AreWholeStructures (plain_types p.now.types) }
    requires constant { All (λ (i : PlainItem). IsStaticWritten i.written) (map plain_item items.now) }
    requires zero { IsConstantState (plain_program p.now) (state_of outside.old nothing_around) }
    ensures cells { OnOk result (cells.new.items ≡ listed_cells 0 (scalars (plain_program p.now) (plain_type t.now)) (constant_scalars (listed_scalars (constant_setting (plain_program p.now)) [] (map plain_item items.now) (constant_state (plain_program p.now))))) }
    ensures zero { OnOk result (IsConstantState (plain_program p.now) (state_of outside.new nothing_around)) }
{
    let mut values = Queue::new(alloc);
    let given = constants(alloc, p, items, outside, &mut values)?;
    let Some(scalars) = width_of(&p.types, t) else {
        return Err(Halt::Memory);
    };
    let listed = list(items_if(given, items), &values);
    put_listed_cells(&p.types, t, listed, scalars, cells)
}

/// Items, or none.
fn items_if<'i>(given: bool, items: &'i [Item]) -> &'i [Item]
    ensures { (xs : List Scalar) → scalars_of_items (map plain_item result.now) xs ≡ scalars_if given (map plain_item items.now) xs }
{
    if given { items } else { &items[..0] }
}

/// The cells that a list gives to an object of `count` scalars.
fn put_listed_cells(
    types: &Types<'_>,
    t: &CType,
    listed: Listed<'_>,
    count: u64,
    cells: &mut Vec<Cell>,
) -> Result<(), Halt>
    requires structures { AreWholeStructures (plain_types types.now) }
    requires list { IsListedFrom 0 (map plain_item listed.items.now) listed.values.now listed.ordered listed.place listed.used }
    requires width { count ≡ length (scalars_of (plain_types types.now) (bare (plain_types types.now) (plain_type t.now))) }
    ensures { OnOk result (cells.new.items ≡ listed_cells 0 (scalars_of (plain_types types.now) (bare (plain_types types.now) (plain_type t.now))) (scalars_of_items (map plain_item listed.entry.items.now) listed.entry.values.now)) }
{
    cells.clear();
    let mut listed = listed;
    for i in 0..count {
        listed = passed(listed, i);
        put_listed_cell(types, t, listed, i, cells)?;
    }
    Ok(())
}

/// The cell that a list gives to a scalar of an object is put after others.
fn put_listed_cell(
    types: &Types<'_>,
    t: &CType,
    listed: Listed<'_>,
    number: u64,
    cells: &mut Vec<Cell>,
) -> Result<(), Halt>
    requires structures { AreWholeStructures (plain_types types.now) }
    requires list { IsListedFrom number (map plain_item listed.items.now) listed.values.now listed.ordered listed.place listed.used }
    requires ahead { IsAhead number (slice_get (map plain_item listed.items.now) listed.place) }
    ensures { OnOk result (PutsAt cells.old.items (listed_cells 0 (scalars_of (plain_types types.now) (bare (plain_types types.now) (plain_type t.now))) (scalars_of_items (map plain_item listed.entry.items.now) listed.entry.values.now)) number cells.new.items) }
{
    match kind_at(types, t, number) {
        Some(kind) => put_cell(scalar_for(listed, kind, number)?, cells),
        None => Err(Halt::Memory),
    }
}

/// The values that are written in a list of constant expressions, in order; false where one is undefined.
fn constants<'p>(
    alloc: Global,
    p: &'p Program<'p>,
    items: &'p [Item],
    outside: &mut Outside,
    values: &mut Queue<Scalar>,
) -> Result<bool, Halt>
    requires structures { AreWholeStructures (plain_types p.now.types) }
    requires constant { All (λ (i : PlainItem). IsStaticWritten i.written) (map plain_item items.now) }
    requires zero { IsConstantState (plain_program p.now) (state_of outside.old nothing_around) }
    ensures values { IfOk result (λ given. scalars_if given (map plain_item items.now) values.new ≡ constant_scalars (listed_scalars (constant_setting (plain_program p.now)) [] (map plain_item items.now) (constant_state (plain_program p.now)))) }
    ensures zero { OnOk result (IsConstantState (plain_program p.now) (state_of outside.new nothing_around)) }
{
    let mut stacks = outside_functions(alloc, p)?;
    stacks.tasks.push(Work::EvaluateItems(items))?;
    outside.left = u64::MAX;
    match run(p, Flow::Normal, &mut stacks, outside) {
        Ok(_) => {
            take_arguments(count_of_items(items), &mut stacks.operands, values)?;
            Ok(true)
        }
        Err(halt) => if is_ended(halt) {
            Ok(false)
        } else {
            Err(Halt::Memory)
        },
    }
}
