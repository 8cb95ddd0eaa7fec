//! Names outside of functions that are `main`, and aren't the function that a program begins with (C99 5.1.2.2.1).

ghost use Rattle.std.specs.Prelude.{◌≡◌, ◌++◌, IfOk, false, map};
ghost use Rattle.p10_syn.specs.Trees.{specifier_row};
ghost use Rattle.p10_syn.specs.Built.{identifier_of, specifier_of};
ghost use Rattle.p10_elabx.specs.First.{problems};
ghost use Rattle.p10_linkage.specs.Linkage.{main_problem};
ghost use Rattle.p10_elabs.specs.Addresses.{constants_of};
ghost use Rattle.p10_elab.specs.Outer.{main_constants};

use p10_elabs::constants_of;
use p10_elabx::Problem;
use p10_linkage::main_problem;
use p10_syn::{Identifier, Spec};
use std::alloc::{AllocError, Global};

/// Notes the constants of enumerations among specifiers that are named `main`.
pub(crate) fn note_constants(
    alloc: Global,
    mains: &mut Vec<Problem>,
    specs: &[Spec<'_>],
) -> Result<(), AllocError>
    ensures { IfOk result (λ _. mains.new.items ≡ mains.old.items ++ main_constants (constants_of (specifier_row (map specifier_of specs.now)))) }
{
    let names = constants_of(alloc, specs)?;
    note_mains(mains, &names)?;
    Ok(())
}

/// Notes names without linkage that are `main`.
fn note_mains(mains: &mut Vec<Problem>, names: &[Identifier<'_>]) -> Result<(), AllocError>
    ensures { IfOk result (λ _. mains.new.items ≡ mains.old.items ++ main_constants (map identifier_of names.now)) }
{
    for name in names {
        note_main(mains, name)?;
    }
    Ok(())
}

/// Notes a name without linkage that is `main`.
pub(crate) fn note_main(mains: &mut Vec<Problem>, name: &Identifier<'_>) -> Result<(), AllocError>
    ensures { IfOk result (λ _. mains.new.items ≡ mains.old.items ++ main_problem false (identifier_of name.now).name (identifier_of name.now).place) }
{
    push_problem(mains, main_problem(false, name.text, name.at))?;
    Ok(())
}

/// Puts a problem after others, if there is one.
pub(crate) fn push_problem(
    mains: &mut Vec<Problem>,
    problem: Option<Problem>,
) -> Result<(), AllocError>
    ensures { IfOk result (λ _. mains.new.items ≡ mains.old.items ++ problems problem) }
{
    if let Some(problem) = problem {
        mains.push(problem)?;
    }
    Ok(())
}
