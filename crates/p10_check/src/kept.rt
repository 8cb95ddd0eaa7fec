//! Claims that are kept of a text: without loops, and of each function the lines that claim.
//!
//! A text may claim more of loops than is to be in memory at once. The lines stay in the text, so that what a function's lines claim of
//! loops is there again for as long as the function is checked.

ghost use Rattle.std.specs.Prelude.{◌≡◌, List, [], ◌∷◌, ◌++◌, OnOk, map, option_map, slice_get};
ghost use Rattle.p10_cert.specs.Claims.{func_of};
ghost use Rattle.p10_cert.specs.Statements.{Entry, entry_text};
ghost use Rattle.p10_loopless.specs.Loopless.{without_loops};
ghost use Rattle.p10_check.specs.private.Keeping.{claims_kept, lines_of, lines_kept, AreKept};

use p10_base::{Bounds, ListBuf};
use p10_cert::{Cert, FuncClaim, FuncRecord};
use std::alloc::{AllocError, Global};

/// Claims of a text, without loops.
#[derive(Drop)]
pub(crate) struct Kept<'c> {
    /// The claims, and the total.
    pub certificate: Cert,
    /// The lines of each function.
    pub lines: ListBuf<FuncRecord<'c>>,
}

/// No claims.
pub(crate) fn nothing_kept<'c>(alloc: Global) -> Kept<'c>
    ensures { AreKept [] (claims_kept result) (lines_kept result) }
{
    Kept {
        certificate: Cert {
            funcs: no_funcs(alloc),
            total: Bounds {
                prefix: 0,
                turn: 0,
                calls: 0,
                bytes: 0,
            },
        },
        lines: no_lines(alloc),
    }
}

/// No claims on functions.
fn no_funcs(alloc: Global) -> ListBuf<FuncClaim>
    ensures { map func_of result ≡ [] }
{
    ListBuf::of(Vec::new(alloc))
}

/// No lines.
fn no_lines<'c>(alloc: Global) -> ListBuf<FuncRecord<'c>>
    ensures { map lines_of result ≡ [] }
{
    ListBuf::of(Vec::new(alloc))
}

/// Keeps one claim more, which these lines tell.
pub(crate) fn keep<'c>(
    alloc: Global,
    kept: &mut Kept<'c>,
    own: FuncClaim,
    lines: &FuncRecord<'c>,
) -> Result<(), AllocError>
    ensures { OnOk result ((given : List Entry) (e : Entry) → AreKept given (claims_kept kept.old) (lines_kept kept.old) → func_of own ≡ e.func → lines.now.text.now ≡ entry_text e
        → AreKept (given ++ e ∷ []) (claims_kept kept.new) (lines_kept kept.new)) }
{
    let loopless = without_loops(alloc, own);
    kept.certificate.funcs.push(loopless)?;
    kept.lines.push(*lines)
}

/// A claim without its loops.
fn without_loops(alloc: Global, own: FuncClaim) -> FuncClaim
    ensures { func_of result ≡ without_loops (func_of own) }
{
    FuncClaim {
        name: own.name,
        rank: own.rank,
        steps: own.steps,
        calls: own.calls,
        bytes: own.bytes,
        alloc: own.alloc,
        params: own.params,
        result: own.result,
        loops: ListBuf::of(Vec::new(alloc)),
    }
}

/// The lines of the function with a number.
pub(crate) fn lines_at<'c>(kept: &Kept<'c>, number: usize) -> Option<FuncRecord<'c>>
    ensures { option_map lines_of result ≡ slice_get (lines_kept kept.now) number }
{
    kept.lines.as_slice().get(number).copied()
}
