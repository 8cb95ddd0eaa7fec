//! Values and places, made of their parts. A maker that may fail does so only where memory runs out.

ghost use Rattle.std.specs.Prelude.{◌≡◌, IfOk};
ghost use Rattle.p10_core.specs.Types.{plain_type};
ghost use Rattle.p10_core.specs.Typed.{value, constant, read, sense, address, decay, convert, cast, unary, binary, logic, conditional, call, built_in, place, variable, global, literal, index, member, dereference};
ghost use Rattle.p10_core.specs.Views.{plain_value, plain_place, plain_values};

use crate::c_type::CType;
use crate::typed::{Library, LogicOp, Place, PlaceForm, Value, ValueForm};
use p10_base::{At, ListBuf, Span, boxed, boxed_pair, boxed_triple};
use p10_int::{BinOp, UnOp};
use std::alloc::{AllocError, Global};

impl Value {
    /// A constant.
    pub fn constant(at: At, ty: CType, number: i128) -> Value
        ensures { plain_value result ≡ value at (plain_type ty) (constant number) }
    {
        Value {
            at,
            ty,
            form: ValueForm::Const(number),
        }
    }

    /// The value read from a place.
    pub fn read(alloc: Global, at: At, ty: CType, from: Place) -> Result<Value, AllocError>
        ensures { IfOk result (λ v. plain_value v ≡ value at (plain_type ty) (read (plain_place from))) }
    {
        Ok(Value {
            at,
            ty,
            form: ValueForm::Read(boxed(alloc, from)?),
        })
    }

    /// The next value of a sensor, by the number of its object.
    pub fn sense(at: At, ty: CType, sensor: u32) -> Value
        ensures { plain_value result ≡ value at (plain_type ty) (sense sensor) }
    {
        Value {
            at,
            ty,
            form: ValueForm::Sense(sensor),
        }
    }

    /// The address of a place.
    pub fn address(alloc: Global, at: At, ty: CType, of: Place) -> Result<Value, AllocError>
        ensures { IfOk result (λ v. plain_value v ≡ value at (plain_type ty) (address (plain_place of))) }
    {
        Ok(Value {
            at,
            ty,
            form: ValueForm::Addr(boxed(alloc, of)?),
        })
    }

    /// The address of an array's first element.
    pub fn decay(alloc: Global, at: At, ty: CType, of: Place) -> Result<Value, AllocError>
        ensures { IfOk result (λ v. plain_value v ≡ value at (plain_type ty) (decay (plain_place of))) }
    {
        Ok(Value {
            at,
            ty,
            form: ValueForm::Decay(boxed(alloc, of)?),
        })
    }

    /// A conversion that isn't written.
    pub fn convert(alloc: Global, at: At, ty: CType, from: Value) -> Result<Value, AllocError>
        ensures { IfOk result (λ v. plain_value v ≡ value at (plain_type ty) (convert (plain_value from))) }
    {
        Ok(Value {
            at,
            ty,
            form: ValueForm::Convert(boxed(alloc, from)?),
        })
    }

    /// A written cast.
    pub fn cast(alloc: Global, at: At, ty: CType, from: Value) -> Result<Value, AllocError>
        ensures { IfOk result (λ v. plain_value v ≡ value at (plain_type ty) (cast (plain_value from))) }
    {
        Ok(Value {
            at,
            ty,
            form: ValueForm::Cast(boxed(alloc, from)?),
        })
    }

    /// A unary operator and its operand.
    pub fn unary(
        alloc: Global,
        at: At,
        ty: CType,
        op: UnOp,
        operand: Value,
    ) -> Result<Value, AllocError>
        ensures { IfOk result (λ v. plain_value v ≡ value at (plain_type ty) (unary op (plain_value operand))) }
    {
        Ok(Value {
            at,
            ty,
            form: ValueForm::Unary(op, boxed(alloc, operand)?),
        })
    }

    /// A binary operator and its operands.
    pub fn binary(
        alloc: Global,
        at: At,
        ty: CType,
        op: BinOp,
        left: Value,
        right: Value,
    ) -> Result<Value, AllocError>
        ensures { IfOk result (λ v. plain_value v ≡ value at (plain_type ty) (binary op (plain_value left) (plain_value right))) }
    {
        let (left, right) = boxed_pair(alloc, left, right)?;
        Ok(Value {
            at,
            ty,
            form: ValueForm::Binary(op, left, right),
        })
    }

    /// `&&` or `||` and its operands.
    pub fn logic(
        alloc: Global,
        at: At,
        ty: CType,
        op: LogicOp,
        left: Value,
        right: Value,
    ) -> Result<Value, AllocError>
        ensures { IfOk result (λ v. plain_value v ≡ value at (plain_type ty) (logic op (plain_value left) (plain_value right))) }
    {
        let (left, right) = boxed_pair(alloc, left, right)?;
        Ok(Value {
            at,
            ty,
            form: ValueForm::Logic(op, left, right),
        })
    }

    /// `test ? left : right`.
    pub fn conditional(
        alloc: Global,
        at: At,
        ty: CType,
        test: Value,
        left: Value,
        right: Value,
    ) -> Result<Value, AllocError>
        ensures { IfOk result (λ v. plain_value v ≡ value at (plain_type ty) (conditional (plain_value test) (plain_value left) (plain_value right))) }
    {
        let (test, left, right) = boxed_triple(alloc, test, left, right)?;
        Ok(Value {
            at,
            ty,
            form: ValueForm::Cond(test, left, right),
        })
    }

    /// A call of a function by its number, with the span of its name.
    pub fn call(at: At, ty: CType, name: Span, function: u32, arguments: Vec<Value>) -> Value
        ensures { plain_value result ≡ value at (plain_type ty) (call name function (plain_values arguments.items)) }
    {
        Value {
            at,
            ty,
            form: ValueForm::Call(name, function, ListBuf::of(arguments)),
        }
    }

    /// A call of a library function, with the span of its name.
    pub fn built_in(
        at: At,
        ty: CType,
        name: Span,
        function: Library,
        arguments: Vec<Value>,
    ) -> Value
        ensures { plain_value result ≡ value at (plain_type ty) (built_in name function (plain_values arguments.items)) }
    {
        Value {
            at,
            ty,
            form: ValueForm::Builtin(name, function, ListBuf::of(arguments)),
        }
    }
}

impl Place {
    /// A variable of the function, by its number.
    pub fn variable(at: At, ty: CType, number: u32) -> Place
        ensures { plain_place result ≡ place at (plain_type ty) (variable number) }
    {
        Place {
            at,
            ty,
            form: PlaceForm::Var(number),
        }
    }

    /// An object of static lifetime, by its number.
    pub fn global(at: At, ty: CType, number: u32) -> Place
        ensures { plain_place result ≡ place at (plain_type ty) (global number) }
    {
        Place {
            at,
            ty,
            form: PlaceForm::Global(number),
        }
    }

    /// A string literal, by the number of its first word.
    pub fn literal(at: At, ty: CType, number: u32, bytes: Vec<u8>) -> Place
        ensures { plain_place result ≡ place at (plain_type ty) (literal number bytes.items) }
    {
        Place {
            at,
            ty,
            form: PlaceForm::Literal(number, ListBuf::of(bytes)),
        }
    }

    /// An element of what a pointer points to.
    pub fn index(
        alloc: Global,
        at: At,
        ty: CType,
        pointer: Value,
        by: Value,
    ) -> Result<Place, AllocError>
        ensures { IfOk result (λ p. plain_place p ≡ place at (plain_type ty) (index (plain_value pointer) (plain_value by))) }
    {
        let (pointer, by) = boxed_pair(alloc, pointer, by)?;
        Ok(Place {
            at,
            ty,
            form: PlaceForm::Index(pointer, by),
        })
    }

    /// A member of a structure, by its place among the members.
    pub fn member(
        alloc: Global,
        at: At,
        ty: CType,
        whole: Place,
        number: u32,
    ) -> Result<Place, AllocError>
        ensures { IfOk result (λ p. plain_place p ≡ place at (plain_type ty) (member (plain_place whole) number)) }
    {
        Ok(Place {
            at,
            ty,
            form: PlaceForm::Member(boxed(alloc, whole)?, number),
        })
    }

    /// What a pointer points to.
    pub fn dereference(
        alloc: Global,
        at: At,
        ty: CType,
        pointer: Value,
    ) -> Result<Place, AllocError>
        ensures { IfOk result (λ p. plain_place p ≡ place at (plain_type ty) (dereference (plain_value pointer))) }
    {
        Ok(Place {
            at,
            ty,
            form: PlaceForm::Deref(boxed(alloc, pointer)?),
        })
    }
}
