//! Whether a certificate is clean.

ghost use Rattle.std.specs.Prelude.{◌≡◌, ◌++◌, map, OnOk, IfOk};
ghost use Rattle.p10_core.specs.Views.{plain_function, plain_program};
ghost use Rattle.p10_cert.specs.Claims.{claims_of};
ghost use Rattle.p10_warn.specs.Ends.{lacks_return};
ghost use Rattle.p10_clean.specs.Clean.{flaws_in_function, flaws_in_functions, flaws_of, first_flaw, said_of, cleanness};
ghost use Rattle.p10_clean.specs.private.Telling.{earlier};

use crate::flaw::{Clean, Flaw, push_if};
use crate::settings::Settings;
use crate::statements::Walk;
use p10_absx::Env;
use p10_cert::Cert;
use p10_core::{Func, Program};
use p10_pass::Manner;
use p10_warn::reach_end;
use std::alloc::{AllocError, Global};

/// What is said of a certificate for a program: `Yes` exactly where all of C1 to C8 hold, else the first that doesn't, by number, then in
/// program order, then in text order.
///
/// # Errors
///
/// Out of memory; 2^32 functions count as that, too.
pub fn clean(alloc: Global, p: &Program<'_>, c: &Cert) -> Result<Clean, AllocError>
    ensures { IfOk result (λ said. said ≡ cleanness (plain_program p.now) (claims_of c.now)) }
{
    let flaws = flaws_of(alloc, p, c)?;
    Ok(said_of(first_flaw(flaws.as_slice())))
}

/// All flaws, in program order and then in text order.
fn flaws_of(alloc: Global, p: &Program<'_>, c: &Cert) -> Result<Vec<Flaw>, AllocError>
    ensures { IfOk result (λ flaws. flaws.items ≡ flaws_of (plain_program p.now) (claims_of c.now)) }
{
    let mut flaws = Vec::new(alloc);
    push_functions(alloc, p, c, p.functions.as_slice(), &mut flaws)?;
    Ok(flaws)
}

/// Puts the flaws in functions, one after the other.
fn push_functions(
    alloc: Global,
    p: &Program<'_>,
    c: &Cert,
    functions: &[Func<'_>],
    flaws: &mut Vec<Flaw>,
) -> Result<(), AllocError>
    ensures { OnOk result (flaws.new.items ≡ flaws.old.items ++ flaws_in_functions (plain_program p.now) (claims_of c.now) 0 (map plain_function functions.now)) }
{
    if functions.len() > u32::MAX as usize {
        return Err(AllocError);
    }
    for (n, f) in functions.iter().enumerate() {
        push_function(alloc, p, c, n as u32, f, flaws)?;
    }
    Ok(())
}

/// Puts the flaws in the function with a number.
fn push_function(
    alloc: Global,
    p: &Program<'_>,
    c: &Cert,
    n: u32,
    f: &Func<'_>,
    flaws: &mut Vec<Flaw>,
) -> Result<(), AllocError>
    ensures { OnOk result (flaws.new.items ≡ flaws.old.items ++ flaws_in_function (plain_program p.now) (claims_of c.now) n (plain_function f.now)) }
{
    push_if(lacks_return(p.main, n, f), 7, f.span, flaws)?;
    let entry = Env::entry(alloc, p, c, n)?;
    let set = Settings::at_entry(alloc, f)?;
    let m = Manner::of(f, Some(c), n);
    let walk = Walk { alloc, m: &m };
    walk.put_block(f.body.as_slice(), &set, &entry, flaws)?;
    Ok(())
}

/// Whether the function with a number isn't `main`, and has a result and an end that can be reached.
fn lacks_return(main: u32, n: u32, f: &Func<'_>) -> bool
    ensures { result ≡ lacks_return main n (plain_function f.now) }
{
    n != main && (!f.result.is_void() && reach_end(f.body.as_slice()))
}

/// The first flaw by number, then in order.
fn first_flaw(flaws: &[Flaw]) -> Option<Flaw>
    ensures { result ≡ first_flaw flaws.now }
{
    let mut first = None;
    let mut rest = flaws;
    while let [f, others @ ..] = rest {
        first = earlier(first, *f);
        rest = others;
    }
    first
}

/// The first of a flaw, if there is one, and of one that stands after it.
fn earlier(first: Option<Flaw>, next: Flaw) -> Option<Flaw>
    ensures { result ≡ earlier first next }
{
    match first {
        Some(f) => Some(if next.c < f.c { next } else { f }),
        None => Some(next),
    }
}

/// What is said by the first flaw.
fn said_of(first: Option<Flaw>) -> Clean
    ensures { result ≡ said_of first }
{
    match first {
        Some(f) => Clean::No { c: f.c, at: f.at },
        None => Clean::Yes,
    }
}
