//! Functions that are declared outside of functions.

ghost use Rattle.std.specs.Prelude.{◌≡◌, IfOk, map, option_map};
ghost use Rattle.p10_syn.specs.Built.{identifier_of};
ghost use Rattle.p10_syn.specs.BuiltStatements.{initial_of};
ghost use Rattle.p10_core.specs.Types.{plain_type, unqualified};
ghost use Rattle.p10_elabx.specs.First.{only_first};
ghost use Rattle.p10_elabd.specs.Shapes.{PlainParameter, ListedParameter};
ghost use Rattle.p10_elabd.specs.Views.{plain_parameter, plain_placed, plain_function, plain_part_function};
ghost use Rattle.p10_heads.specs.PlainHeads.{plain_heads};
ghost use Rattle.p10_linkage.specs.LinkedViews.{plain_kind};
ghost use Rattle.p10_elab.specs.Outer.{function_type, part_type, prototype_declared};
ghost use Rattle.p10_elab.specs.KnownViews.{plain_known};

use crate::declared_names::declare_name;
use crate::known::Known;
use crate::linking::Linking;
use crate::setting::Setting;
use p10_core::CType;
use p10_elabd::{DeclaredFunction, DeclaredParameter, PlacedParameter, RefusedFunction, Storage};
use p10_elabs::no_initializer;
use p10_linkage::{LinkedKind, PartKind};
use p10_syn::{Identifier, Init};
use std::alloc::{AllocError, Global};

/// Declares a function by a prototype, which has no initialiser.
pub(crate) fn prototype_declared<'s>(
    setting: &Setting<'_, 's>,
    known: &mut Known<'s>,
    storage: Storage,
    name: Identifier<'s>,
    kind: LinkedKind,
    initial: &Option<Init<'s>>,
) -> Result<(), AllocError>
    ensures { IfOk result (λ _. plain_known known.new ≡ prototype_declared only_first (plain_heads setting.now.heads.now) (identifier_of name.entry) (plain_kind kind) storage (initial_of initial.now) (plain_known known.old)) }
{
    let says = Linking {
        storage,
        defines: false,
        sensor: false,
    };
    declare_name(setting, known, name, kind, says)?;
    no_initializer(setting.alloc, &mut known.standing, initial)?;
    Ok(())
}

/// The type of a function with linkage: those of its parameters without marks, and its result.
pub(crate) fn function_kind(
    alloc: Global,
    function: &DeclaredFunction<'_>,
) -> Result<LinkedKind, AllocError>
    ensures { IfOk result (λ kind. plain_kind kind ≡ function_type (plain_function function.now)) }
{
    let types = parameter_types(alloc, function.parameters.as_slice())?;
    let result = function.result.copy(alloc)?;
    Ok(LinkedKind::Function(types, result))
}

/// The types of parameters without marks.
fn parameter_types(
    alloc: Global,
    parameters: &[DeclaredParameter<'_>],
) -> Result<Vec<CType>, AllocError>
    ensures { IfOk result (λ types. map plain_type types.items ≡ map (λ (p : PlainParameter). unqualified p.type) (map plain_parameter parameters.now)) }
{
    let mut types = Vec::new(alloc);
    for parameter in parameters {
        let ty = parameter.ty.copy(alloc)?;
        types.push(ty.unqualified())?;
    }
    Ok(types)
}

/// The type of a function of which a part is refused: those of its parameters without marks, and its result.
pub(crate) fn refused_kind(
    alloc: Global,
    function: &RefusedFunction<'_>,
) -> Result<LinkedKind, AllocError>
    ensures { IfOk result (λ kind. plain_kind kind ≡ part_type (plain_part_function function.now)) }
{
    let parameters = listed_types(alloc, function.parameters.as_slice())?;
    let result = copied(alloc, &function.result)?;
    Ok(LinkedKind::Refused(PartKind {
        parameters,
        list: function.list,
        result,
    }))
}

/// The types of listed parameters without marks, unless they are refused.
fn listed_types(
    alloc: Global,
    parameters: &[PlacedParameter<'_>],
) -> Result<Vec<Option<CType>>, AllocError>
    ensures { IfOk result (λ types. map (option_map plain_type) types.items ≡ map (λ (p : ListedParameter). option_map unqualified p.type) (map plain_placed parameters.now)) }
{
    let mut types = Vec::new(alloc);
    for parameter in parameters {
        let ty = unmarked(alloc, &parameter.ty)?;
        types.push(ty)?;
    }
    Ok(types)
}

/// A type without its mark, unless it is refused.
fn unmarked(alloc: Global, ty: &Option<CType>) -> Result<Option<CType>, AllocError>
    ensures { IfOk result (λ t. option_map plain_type t ≡ option_map unqualified (option_map plain_type ty.now)) }
{
    match ty {
        Some(ty) => {
            let ty = ty.copy(alloc)?;
            Ok(Some(ty.unqualified()))
        }
        None => Ok(None),
    }
}

/// A type, unless it is refused.
fn copied(alloc: Global, ty: &Option<CType>) -> Result<Option<CType>, AllocError>
    ensures { IfOk result (λ t. option_map plain_type t ≡ option_map plain_type ty.now) }
{
    match ty {
        Some(ty) => {
            let ty = ty.copy(alloc)?;
            Ok(Some(ty))
        }
        None => Ok(None),
    }
}
