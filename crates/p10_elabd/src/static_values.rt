//! Constants: those of integer types, and those that initialise objects of static lifetime (C99 6.6p6 to p9, 6.7.8p4).

ghost use Rattle.std.specs.Prelude.{◌≡◌, IfOk};
ghost use Rattle.p10_core.specs.Constants.{IsSmall};
ghost use Rattle.p10_core.specs.Views.{plain_value, plain_place};
ghost use Rattle.p10_elabx.specs.Built.{ruled_value};
ghost use Rattle.p10_elabd.specs.Expressions.{folded_number, constant_number};
ghost use Rattle.p10_elabd.specs.StaticValues.{address_part, place_part, address_stop, constant_address, static_value};

use crate::addresses::weigh_address;
use p10_base::{At, SubsetCode};
use p10_core::{
    Place, PlaceForm, Value, ValueForm, first_of_parts, fold, inconstant_part, is_null,
};
use p10_elabx::Problem;
use p10_int::BinOp;

/// What an integer constant expression gives, or the part that stops.
fn folded_number(found: Result<i128, At>) -> Result<i128, Option<Problem>>
    requires small { IfOk found IsSmall }
    ensures value { result ≡ folded_number found }
    ensures small { IfOk result IsSmall }
{
    match found {
        Ok(number) => Ok(number),
        Err(at) => Err(Some(Problem {
            code: SubsetCode::ConstantStops,
            at,
        })),
    }
}

/// What an integer constant expression gives (C99 6.6p6): a part of another form is refused, then one that stops.
pub fn constant_number(v: &Value) -> Result<i128, Option<Problem>>
    ensures value { result ≡ constant_number (plain_value v.now) }
    ensures small { IfOk result IsSmall }
{
    match inconstant_part(v) {
        Some(at) => Err(Some(Problem {
            code: SubsetCode::NotConstant,
            at,
        })),
        None => {
            if v.ty.is_integer() {
                folded_number(fold(v))
            } else {
                Err(Some(Problem {
                    code: SubsetCode::NotConstant,
                    at: v.at,
                }))
            }
        }
    }
}

/// A value for a scalar of static lifetime (C99 6.7.8p4).
pub fn static_value(v: Value) -> Result<Value, Option<Problem>>
    ensures { ruled_value result ≡ static_value (plain_value v) }
{
    if v.ty.is_integer() {
        match constant_number(&v) {
            Ok(_) => Ok(v),
            Err(r) => Err(r),
        }
    } else {
        constant_address(v)
    }
}

/// A pointer's value for a scalar of static lifetime.
fn constant_address(v: Value) -> Result<Value, Option<Problem>>
    ensures { ruled_value result ≡ constant_address (plain_value v) (address_part (plain_value v)) (address_stop (plain_value v)) }
{
    match address_part(&v) {
        Some(at) => Err(Some(Problem {
            code: SubsetCode::NotConstant,
            at,
        })),
        None => match weigh_address(&v).stop {
            Some(at) => Err(Some(Problem {
                code: SubsetCode::ConstantStops,
                at,
            })),
            None => Ok(v),
        },
    }
}

/// The first of the smallest parts of a pointer's value that aren't of the form of an address constant.
#[cycle(address)]
pub fn address_part(v: &Value) -> Option<At>
    ensures { result ≡ address_part (plain_value v.now) }
{
    match &v.form {
        ValueForm::Addr(place) | ValueForm::Decay(place) => place_part(place),
        ValueForm::Convert(part) | ValueForm::Cast(part) => {
            if is_null(part) {
                None
            } else {
                address_part(part)
            }
        }
        ValueForm::Binary(op, left, right) => match op {
            BinOp::Add => {
                if left.ty.is_pointer() {
                    first_of_parts(address_part(left), inconstant_part(right))
                } else {
                    first_of_parts(inconstant_part(left), address_part(right))
                }
            }
            BinOp::Sub => first_of_parts(address_part(left), inconstant_part(right)),
            _ => Some(v.at),
        },
        ValueForm::Const(_)
        | ValueForm::Read(_)
        | ValueForm::Sense(_)
        | ValueForm::Unary(_, _)
        | ValueForm::Logic(_, _, _)
        | ValueForm::Cond(_, _, _)
        | ValueForm::Call(_, _, _)
        | ValueForm::Builtin(_, _, _) => Some(v.at),
    }
}

/// The same for a place whose address is taken: objects of static lifetime have one that is constant.
#[cycle(address)]
pub fn place_part(p: &Place) -> Option<At>
    ensures { result ≡ place_part (plain_place p.now) }
{
    match &p.form {
        PlaceForm::Var(_) => Some(p.at),
        PlaceForm::Global(_) | PlaceForm::Literal(_, _) => None,
        PlaceForm::Index(pointer, by) => first_of_parts(address_part(pointer), inconstant_part(by)),
        PlaceForm::Member(whole, _) => place_part(whole),
        PlaceForm::Deref(pointer) => address_part(pointer),
    }
}
