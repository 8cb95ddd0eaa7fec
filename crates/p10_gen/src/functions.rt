//! The texts of functions, and of the lines that call them.

ghost use Rattle.std.specs.Prelude.{◌≡◌, ◌++◌, IfErr, OnOk};
ghost use Rattle.p10_gen.specs.private.Making.{after_bound, after_called, before_bound, before_called, before_name, call_text, function_text, texts_below, IsFaultAfter};

use crate::buffer::FileText;
use crate::fault::GenFault;

/// The loop of each function has up to this many turns.
const MOST_TURNS: u64 = 7;

/// Puts the functions below `functions` after the text.
///
/// # Errors
///
/// Over the limit of a source file's bytes, or out of memory.
pub(crate) fn put_functions(text: &mut FileText, functions: u64) -> Result<(), GenFault>
    ensures ok { OnOk result (text.new ≡ text.old ++ texts_below function_text functions) }
    ensures fault { IfErr result (IsFaultAfter text.old (texts_below function_text functions)) }
{
    for k in 0..functions {
        put_function(text, k)?;
    }
    Ok(())
}

/// Puts function `k` after the text.
///
/// # Errors
///
/// As [`put_functions`].
#[tactic(auto, using(crate::proofs::Making::put_pieces), unfolding(crate::specs::private::Making::function_text))]
fn put_function(text: &mut FileText, k: u64) -> Result<(), GenFault>
    ensures ok { OnOk result (text.new ≡ text.old ++ function_text k) }
    ensures fault { IfErr result (IsFaultAfter text.old (function_text k)) }
{
    text.put(before_name())?;
    text.put_number(k)?;
    text.put(before_bound())?;
    text.put_number(k % MOST_TURNS + 1)?;
    text.put(after_bound())
}

/// Puts the lines that call the functions below `functions` after the text.
///
/// # Errors
///
/// As [`put_functions`].
pub(crate) fn put_calls(text: &mut FileText, functions: u64) -> Result<(), GenFault>
    ensures ok { OnOk result (text.new ≡ text.old ++ texts_below call_text functions) }
    ensures fault { IfErr result (IsFaultAfter text.old (texts_below call_text functions)) }
{
    for k in 0..functions {
        put_call(text, k)?;
    }
    Ok(())
}

/// Puts the line that calls function `k` after the text.
///
/// # Errors
///
/// As [`put_functions`].
#[tactic(auto, using(crate::proofs::Making::put_pieces), unfolding(crate::specs::private::Making::call_text))]
fn put_call(text: &mut FileText, k: u64) -> Result<(), GenFault>
    ensures ok { OnOk result (text.new ≡ text.old ++ call_text k) }
    ensures fault { IfErr result (IsFaultAfter text.old (call_text k)) }
{
    text.put(before_called())?;
    text.put_number(k)?;
    text.put(after_called())
}

/// What stands before the number in the name of a function.
#[tactic(auto, unfolding(crate::specs::private::Making::before_name))]
fn before_name() -> &'static [u8]
    ensures { result.now ≡ before_name }
{
    b"static int f"
}

/// What stands between the number of a function and the bound of its loop.
#[tactic(auto, unfolding(crate::specs::private::Making::before_bound))]
fn before_bound() -> &'static [u8]
    ensures { result.now ≡ before_bound }
{
    b"(int x)
{
    int s = 0;
    if (!c_assert(x >= 0) || !c_assert(x <= 1000)) {
        return 0;
    }
    for (int i = 0; i < "
}

/// What stands after the bound of the loop.
#[tactic(auto, unfolding(crate::specs::private::Making::after_bound))]
fn after_bound() -> &'static [u8]
    ensures { result.now ≡ after_bound }
{
    b"; i++) {
        s = (s + x + i) % 1000;
    }
    return s;
}
"
}

/// What stands before the number of a called function.
#[tactic(auto, unfolding(crate::specs::private::Making::before_called))]
fn before_called() -> &'static [u8]
    ensures { result.now ≡ before_called }
{
    b"    t = f"
}

/// What stands after the number of a called function.
#[tactic(auto, unfolding(crate::specs::private::Making::after_called))]
fn after_called() -> &'static [u8]
    ensures { result.now ≡ after_called }
{
    b"(t);\n"
}
