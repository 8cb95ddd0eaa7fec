//! How readers stop. What was read before is dropped here, once for all readers: a drop of a tree makes the proof of the
//! function that it stands in long.

ghost use Rattle.std.specs.Prelude.{◌≡◌, ◌∷◌, ◌++◌, [], Err, OnOk};

use std::alloc::AllocError;

/// The trouble, without the part that was read before it.
pub fn stopped<T: Drop, U, E>(_part: T, trouble: E) -> Result<U, E>
    ensures { result ≡ Err trouble }
{
    Err(trouble)
}

/// The trouble, without the two parts that were read before it.
pub fn stopped_after_two<T: Drop, U: Drop, V, E>(_first: T, _second: U, trouble: E) -> Result<V, E>
    ensures { result ≡ Err trouble }
{
    Err(trouble)
}

/// The trouble, without the three parts that were read before it.
pub fn stopped_after_three<T: Drop, U: Drop, V, E>(
    _first: T,
    _second: U,
    _third: U,
    trouble: E,
) -> Result<V, E>
    ensures { result ≡ Err trouble }
{
    Err(trouble)
}

/// Puts a part at the end of those that were read before it.
pub fn push_one<T: Drop>(all: &mut Vec<T>, part: T) -> Result<(), AllocError>
    ensures { OnOk result (all.new.items ≡ all.old.items ++ part ∷ []) }
{
    all.push(part)?;
    Ok(())
}
