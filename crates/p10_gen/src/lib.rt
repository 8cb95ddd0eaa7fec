//! A program of any size, as the text of a C file.
//!
//! Entry point: [`generated`], the program of a number of functions. With one function its text is
//!
//!     static int f0(int x)
//!     {
//!         int s = 0;
//!         if (!c_assert(x >= 0) || !c_assert(x <= 1000)) {
//!             return 0;
//!         }
//!         for (int i = 0; i < 1; i++) {
//!             s = (s + x + i) % 1000;
//!         }
//!         return s;
//!     }
//!     int main(void)
//!     {
//!         int t = 1;
//!         t = f0(t);
//!         return t;
//!     }
//!
//! and each further function has a name of its own, a loop of 1 to 7 turns, and a call in `main`. Invariant: a text that is
//! given is exactly that of the definition, and no longer than a source file may be. What the program does is left to the
//! crates above.
#![tactic(auto)]

ghost use Rattle.std.specs.Prelude.{◌≡◌, ◌≤◌, length, IfOk, IfErr};
ghost use Rattle.p10_gen.specs.Programs.{generated_text};
ghost use Rattle.p10_gen.specs.Faults.{IsFault};

mod buffer;
mod fault;
mod functions;
pub mod laws;
mod program;

use buffer::FileText;
pub use fault::GenFault;
use p10_base::Limit;
use program::put_program;
use std::alloc::Global;

/// The text of the program of `functions` functions and `main`.
///
/// # Errors
///
/// Over the limit M1 exactly where the text is longer than a source file may be, of which no more is made than the limit
/// allows; or out of memory.
pub fn generated(alloc: Global, functions: u64) -> Result<Vec<u8>, GenFault>
    ensures text { IfOk result (λ bytes. bytes.items ≡ generated_text functions) }
    ensures most { IfOk result (λ bytes. length bytes.items ≤ Limit.MOST_FILE_BYTES) }
    ensures fault { IfErr result (IsFault functions) }
{
    let mut text = FileText::new(alloc);
    put_program(&mut text, functions)?;
    Ok(text.into_bytes())
}
