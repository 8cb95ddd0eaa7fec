//! The names in a command.

ghost use Rattle.std.specs.Prelude.{◌≡◌, IfOk, map, string_bytes};

use p10_base::TextBuf;
use std::alloc::{AllocError, Global};

/// Texts as strings of their own.
///
/// # Errors
///
/// Out of memory.
pub fn strings(alloc: Global, texts: &[TextBuf]) -> Result<Vec<String>, AllocError>
    ensures { IfOk result (λ found. map string_bytes found.items ≡ texts.now) }
{
    let mut found = Vec::new(alloc);
    for text in texts {
        found.push(String::from_str(alloc, text.as_str())?)?;
    }
    Ok(found)
}
