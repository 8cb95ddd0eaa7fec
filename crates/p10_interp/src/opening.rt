//! The state before `main` is entered (C99 5.1.2, 6.7.8): objects of static lifetime with their initial values, and string
//! literals.

ghost use Rattle.std.specs.Prelude.{◌≡◌, ◌∷◌, ◌++◌, ◌+◌, [], suc, map, length, OnOk, IfOk};
ghost use Rattle.p10_core.specs.Types.{plain_type};
ghost use Rattle.p10_core.specs.Views.{plain_program, plain_object, plain_literal};
ghost use Rattle.p10_core.specs.WholePrograms.{IsWholeProgram, IsStaticInitializer};
ghost use Rattle.p10_meaning.specs.Scalars.{zero_cells};
ghost use Rattle.p10_meaning.specs.Values.{scalars};
ghost use Rattle.p10_meaning.specs.Opening.{static_objects, literal_objects, initial_cells, opening};
ghost use Rattle.p10_interp.specs.private.Machines.{Around, state_of};
ghost use Rattle.p10_interp.specs.private.Constants.{nothing_around, IsConstantState};
ghost use Rattle.p10_interp.specs.private.Statics.{HasStatics, starting};

use crate::constants::{put_initial, put_zeros_of};
use crate::outside::Outside;
use crate::queue::Queue;
use crate::work::Halt;
use p10_core::{Global as StaticObject, Literal, Program};
use p10_meaning::Cell;
use p10_store::{Origin, Shape, Store};
use std::alloc::{AllocError, Global};

/// How many bytes of output wait at most.
const PIECE: usize = 4096;

/// The state before `main` is entered, without input, output and values of sensors. Requests for memory with these numbers are
/// denied.
pub fn opened<'p>(
    alloc: Global,
    p: &'p Program<'p>,
    denied: Vec<u64>,
) -> Result<Outside, AllocError>
    requires program { IsWholeProgram (plain_program p.now) }
    ensures state { IfOk result (λ outside. (io : Around) → state_of outside io ≡ record (opening (plain_program p.now) (record { input = io.rest; denied = denied.items; sensors = [] }) 0) { output = io.out }) }
    ensures pending { IfOk result (λ outside. outside.pending ≡ []) }
    ensures waiting { IfOk result (λ outside. outside.waiting.items ≡ []) }
{
    match opened_store(alloc, p) {
        Ok(store) => without_world(alloc, p, store, denied, 0),
        Err(_) => Err(AllocError),
    }
}

/// The state with a store, in which nothing was executed yet.
fn without_world<'p>(
    alloc: Global,
    p: &'p Program<'p>,
    store: Store,
    denied: Vec<u64>,
    left: u64,
) -> Result<Outside, AllocError>
    ensures state { IfOk result (λ outside. (io : Around) → state_of outside io ≡ starting (plain_program p.now) store denied.items left io) }
    ensures pending { IfOk result (λ outside. outside.pending ≡ []) }
    ensures waiting { IfOk result (λ outside. outside.waiting.items ≡ []) }
{
    let mut waiting = Vec::new(alloc);
    waiting.reserve(PIECE)?;
    Ok(Outside {
        store,
        pending: Queue::new(alloc),
        sensors: Queue::new(alloc),
        denied,
        requests: 0,
        waiting,
        left,
        calls: 0,
        bytes: 0,
        marked: p.mark.is_none(),
        after: 0,
        cells: Vec::new(alloc),
    })
}

/// The objects of static lifetime with their initial values, and the string literals.
fn opened_store<'p>(alloc: Global, p: &'p Program<'p>) -> Result<Store, Halt>
    requires program { IsWholeProgram (plain_program p.now) }
    ensures { IfOk result (λ s. HasStatics (plain_program p.now) (λ o. initial_cells (plain_program p.now) o.type o.initializer) s) }
{
    let mut outside = constant_state(alloc, p)?;
    let mut cells = Vec::new(alloc);
    let mut store = Store::new(alloc);
    let objects = p.globals.as_slice();
    for (number, object) in objects.iter().enumerate() {
        put_initial(alloc, p, object, &mut outside, &mut cells)?;
        open_static(object, cells.as_slice(), &mut store)?;
    }
    open_literals(p.literals.as_slice(), &mut store)?;
    Ok(store)
}

/// The state in which constant expressions are evaluated: all objects of static lifetime are zero.
fn constant_state<'p>(alloc: Global, p: &'p Program<'p>) -> Result<Outside, Halt>
    requires program { IsWholeProgram (plain_program p.now) }
    ensures { IfOk result (λ outside. IsConstantState (plain_program p.now) (state_of outside nothing_around)) }
{
    let mut cells = Vec::new(alloc);
    let mut store = Store::new(alloc);
    let objects = p.globals.as_slice();
    for (number, object) in objects.iter().enumerate() {
        put_zeros_of(&p.types, &object.ty, &mut cells)?;
        open_static(object, cells.as_slice(), &mut store)?;
    }
    open_literals(p.literals.as_slice(), &mut store)?;
    match without_world(alloc, p, store, Vec::new(alloc), 0) {
        Ok(outside) => Ok(outside),
        Err(_) => Err(Halt::Memory),
    }
}

/// Opens an object of static lifetime that begins with these cells; a sensor has no scalars, so a number is passed over.
fn open_static(object: &StaticObject<'_>, cells: &[Cell], store: &mut Store) -> Result<(), Halt>
    ensures objects { OnOk result (store.new.objects ≡ store.old.objects ++ static_objects (λ _. cells.now) store.old.opened (plain_object object.now ∷ [])) }
    ensures opened { OnOk result (store.new.opened ≡ store.old.opened + 1) }
{
    if store.opened() == u128::MAX {
        return Err(Halt::Memory);
    }
    if object.sensor {
        store.skip();
        return Ok(());
    }
    let shape = Shape {
        scalars: cells.len() as u64,
    };
    match store.open(&shape, 1, Origin::DeclaredWith(cells)) {
        Ok(_) => Ok(()),
        Err(_) => Err(Halt::Memory),
    }
}

/// Opens the objects of string literals.
fn open_literals(literals: &[Literal], store: &mut Store) -> Result<(), Halt>
    ensures objects { OnOk result (store.new.objects ≡ store.old.objects ++ literal_objects store.old.opened (map plain_literal literals.now)) }
    ensures opened { OnOk result (store.new.opened ≡ store.old.opened + length literals.now) }
{
    for (place, literal) in literals.iter().enumerate() {
        open_literal(literal, store)?;
    }
    Ok(())
}

/// Opens the object of a string literal.
fn open_literal(literal: &Literal, store: &mut Store) -> Result<(), Halt>
    ensures objects { OnOk result (store.new.objects ≡ store.old.objects ++ literal_objects store.old.opened (plain_literal literal.now ∷ [])) }
    ensures opened { OnOk result (store.new.opened ≡ store.old.opened + 1) }
{
    if store.opened() == u128::MAX {
        return Err(Halt::Memory);
    }
    let bytes = literal.bytes.as_slice();
    let shape = Shape {
        scalars: bytes.len() as u64,
    };
    match store.open(&shape, 1, Origin::Literal(bytes)) {
        Ok(_) => Ok(()),
        Err(_) => Err(Halt::Memory),
    }
}
