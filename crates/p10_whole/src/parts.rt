//! Parts of lists.

ghost use Rattle.std.specs.Prelude.{◌≡◌, ◌≤◌, ◌+◌, ◌<◌, length, take, drop};

/// The first `count` elements.
pub(crate) fn first_of<T>(all: &[T], count: usize) -> &[T]
    requires { count ≤ length all.now }
    ensures { result.now ≡ take count all.now }
{
    &all[..count]
}

/// The elements after the one at a place.
pub(crate) fn rest_after<T>(all: &[T], place: usize) -> &[T]
    requires { place < length all.now }
    ensures { result.now ≡ drop (place + 1) all.now }
{
    &all[place + 1..]
}
