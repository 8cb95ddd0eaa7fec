//! Violations by functions.

ghost use Rattle.std.specs.Prelude.{◌≡◌, ◌++◌, IfOk, map};
ghost use Rattle.p10_core.specs.Views.{plain_function};
ghost use Rattle.p10_warn.specs.Ends.{lacks_return};
ghost use Rattle.p10_warn.specs.private.Contexts.{names_at};
ghost use Rattle.p10_warn.specs.private.Listing.{function_violations, functions_violations};

use crate::ends::reach_end;
use crate::file_scope::FileScope;
use crate::jumps::push_after_jumps;
use crate::listing::push_if;
use crate::number_set::NumberSet;
use crate::scopes::push_hidden;
use crate::unused::push_unused_in;
use p10_base::Violation;
use p10_core::Func;
use std::alloc::{AllocError, Global};

/// Puts the violations by functions after the others, where these numbers are those of functions that are called, and `main` is
/// the number of `main`.
pub(crate) fn push_by_functions<'s>(
    alloc: Global,
    functions: &[Func<'s>],
    file: &FileScope<'_, 's>,
    main: u32,
    called: &NumberSet,
    violations: &mut Vec<Violation>,
) -> Result<(), AllocError>
    ensures { IfOk result (λ _. violations.new.items ≡ violations.old.items ++ functions_violations (names_at file.now) main called.now.list.items 0 (map plain_function functions.now)) }
{
    for (number, function) in functions.iter().enumerate() {
        push_unused_in(alloc, function, violations)?;
        push_if(
            2,
            function.is_static && !called.has(number),
            function.span,
            violations,
        )?;
        push_hidden(alloc, file, number, function, violations)?;
        push_after_jumps(alloc, function.body.as_slice(), violations)?;
        push_if(
            8,
            lacks_return(main, number, function),
            function.span,
            violations,
        )?;
    }
    Ok(())
}

/// Whether the function with a number isn't `main`, and has a result and an end that can be reached.
fn lacks_return(main: u32, number: usize, function: &Func<'_>) -> bool
    ensures { result ≡ lacks_return main number (plain_function function.now) }
{
    number != main as usize && (!function.result.is_void() && reach_end(function.body.as_slice()))
}
