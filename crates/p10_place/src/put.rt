//! Values put in the place of others. A drop of a tree makes the proof of the function that it stands in long, so trees are put here.

ghost use Rattle.std.specs.Prelude.{◌≡◌};

/// Puts a value in the place of another, which is dropped.
pub(crate) fn put<T: Drop>(place: &mut T, value: T)
    ensures { place.new ≡ value }
{
    *place = value;
}
