//! What declared names with linkage stand for.

ghost use Rattle.std.specs.Prelude.{◌≡◌, map, IfOk};
ghost use Rattle.p10_core.specs.Types.{plain_type};
ghost use Rattle.p10_elabx.specs.Scopes.{callable};
ghost use Rattle.p10_elabx.specs.Views.{meaning_of};
ghost use Rattle.p10_linkage.specs.LinkedViews.{plain_kind};
ghost use Rattle.p10_elab.specs.Knowledge.{meaning_by};

use p10_base::ListBuf;
use p10_core::CType;
use p10_elabx::Named;
use p10_linkage::LinkedKind;
use std::alloc::{AllocError, Global};

/// What a declared name stands for, by the number of its function or object.
pub fn named_by(
    alloc: Global,
    kind: &LinkedKind,
    number: u32,
    sensor: bool,
) -> Result<Named, AllocError>
    ensures { IfOk result (λ named. meaning_of named ≡ meaning_by (plain_kind kind.now) number sensor) }
{
    match kind {
        LinkedKind::Function(parameters, result) => {
            named_function(alloc, number, parameters.as_slice(), result)
        }
        LinkedKind::Object(ty) => Ok(Named::Global {
            number,
            ty: ty.copy(alloc)?,
            sensor,
        }),
        LinkedKind::Refused(_) | LinkedKind::UnknownObject => Ok(Named::Unknown),
    }
}

/// What the name of a function stands for.
fn named_function(
    alloc: Global,
    number: u32,
    parameters: &[CType],
    given: &CType,
) -> Result<Named, AllocError>
    ensures { IfOk result (λ named. meaning_of named ≡ callable number (map plain_type parameters.now) (plain_type given.now)) }
{
    let params = copied_types(alloc, parameters)?;
    let result = given.copy(alloc)?;
    Ok(Named::Function {
        number,
        params: ListBuf::of(params),
        result,
    })
}

/// Equal types.
fn copied_types(alloc: Global, types: &[CType]) -> Result<Vec<CType>, AllocError>
    ensures { IfOk result (λ copies. map plain_type copies.items ≡ map plain_type types.now) }
{
    let mut copies = Vec::new(alloc);
    for ty in types {
        copies.push(ty.copy(alloc)?)?;
    }
    Ok(copies)
}
