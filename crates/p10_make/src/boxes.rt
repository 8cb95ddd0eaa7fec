//! Parts of trees in boxes. Where memory runs out the parts are dropped here, once for all makers.

ghost use Rattle.std.specs.Prelude.{◌≡◌, Err};

/// The trouble, without the part that was given beside those in boxes.
pub(crate) fn stopped<T: Drop, U, E>(_part: T, trouble: E) -> Result<U, E>
    ensures { result ≡ Err trouble }
{
    Err(trouble)
}

/// The trouble, without the two parts that were given beside those in boxes.
pub(crate) fn stopped_after_two<T: Drop, U, E>(_first: T, _second: T, trouble: E) -> Result<U, E>
    ensures { result ≡ Err trouble }
{
    Err(trouble)
}
