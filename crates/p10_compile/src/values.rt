//! Where values stand, and what they owe.

ghost use Rattle.std.specs.Prelude.{◌≡◌, IfOk, None};
ghost use Rattle.p10_core.specs.Types.{plain_type};
ghost use Rattle.p10_core.specs.Views.{plain_value, plain_form};
ghost use Rattle.p10_meaning.specs.Values.{is_structure};
ghost use Rattle.p10_code.specs.ValueCode.{operand, operand_by, debt, is_sure, library_gives};
ghost use Rattle.p10_compile.specs.Views.{plain_operand, plain_site};

use crate::constants::{fixed_of, operand_of};
use crate::counts::step_more;
use crate::operations::Operand;
use crate::site::Site;
use p10_core::{CType, Library, TypeForm, Value, ValueForm};
use std::alloc::AllocError;

impl Site<'_, '_> {
    /// The operand that a value is, which is computed to slot `k`.
    pub fn operand(&self, k: u32, value: &Value) -> Operand
        ensures { plain_operand result ≡ operand (plain_site self.now) k (plain_value value.now) }
    {
        match fixed_of(value) {
            Some(x) => operand_of(x),
            None => self.computed(k, value),
        }
    }

    /// The same of a value that doesn't stand in an operation.
    pub fn computed(&self, k: u32, value: &Value) -> Operand
        ensures { plain_operand result ≡ operand_by None (plain_site self.now) k (plain_type value.now.ty) (plain_form value.now.form) }
    {
        match &value.form {
            ValueForm::Read(place) => {
                if is_structure(&value.ty) {
                    Operand::Slot(k)
                } else {
                    self.spot_of(place).read(k)
                }
            }
            _ => Operand::Slot(k),
        }
    }
}

/// Whether a type is a structure.
pub fn is_structure(t: &CType) -> bool
    ensures { result ≡ is_structure (plain_type t.now) }
{
    matches!(&t.form, TypeForm::Struct(_))
}

/// The debt after a value. There is no memory for a tree of more nodes than a number of 64 bits counts.
pub fn debt(d: u64, value: &Value) -> Result<u64, AllocError>
    ensures { IfOk result (λ n. n ≡ debt d (plain_value value.now)) }
{
    match fixed_of(value) {
        Some(_) => step_more(d),
        None => Ok(0),
    }
}

/// Whether a value is surely given.
pub fn is_sure(value: &Value) -> bool
    ensures { result ≡ is_sure (plain_type value.now.ty) (plain_form value.now.form) }
{
    match &value.form {
        ValueForm::Read(_) => !is_structure(&value.ty),
        ValueForm::Cast(_) => !value.ty.is_void(),
        ValueForm::Call(_, _, _) => false,
        ValueForm::Builtin(_, function, _) => library_gives(*function),
        _ => true,
    }
}

/// Whether a library function gives a value.
fn library_gives(function: Library) -> bool
    ensures { result ≡ library_gives function }
{
    !matches!(function, Library::Assert | Library::Free)
}
