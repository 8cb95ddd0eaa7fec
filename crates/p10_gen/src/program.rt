//! The text of the whole program.

ghost use Rattle.std.specs.Prelude.{◌≡◌, ◌++◌, IfErr, OnOk};
ghost use Rattle.p10_gen.specs.private.Making.{main_begins, main_ends, program_text, IsFaultAfter};

use crate::buffer::FileText;
use crate::fault::GenFault;
use crate::functions::{put_calls, put_functions};

/// Puts the program of `functions` functions and `main` after the text.
///
/// # Errors
///
/// Over the limit of a source file's bytes, or out of memory.
#[tactic(auto, using(crate::proofs::Making::put_pieces), unfolding(crate::specs::private::Making::program_text))]
pub(crate) fn put_program(text: &mut FileText, functions: u64) -> Result<(), GenFault>
    ensures ok { OnOk result (text.new ≡ text.old ++ program_text functions) }
    ensures fault { IfErr result (IsFaultAfter text.old (program_text functions)) }
{
    put_functions(text, functions)?;
    text.put(main_begins())?;
    put_calls(text, functions)?;
    text.put(main_ends())
}

/// How `main` begins.
#[tactic(auto, unfolding(crate::specs::private::Making::main_begins))]
fn main_begins() -> &'static [u8]
    ensures { result.now ≡ main_begins }
{
    b"int main(void)\n{\n    int t = 1;\n"
}

/// How `main` ends.
#[tactic(auto, unfolding(crate::specs::private::Making::main_ends))]
fn main_ends() -> &'static [u8]
    ensures { result.now ≡ main_ends }
{
    b"    return t;\n}\n"
}
