//! The two parts of a slice at a place inside it, as slices of it.

ghost use Rattle.std.specs.Prelude.{◌≡◌, ◌≤◌, length, take, drop};

/// The first `count` items.
#[inline]
pub fn first_items<T>(items: &[T], count: usize) -> &[T]
    requires { count ≤ length items.now }
    ensures { result.now ≡ take count items.now }
{
    &items[..count]
}

/// The items after the first `count`.
#[inline]
pub fn items_after<T>(items: &[T], count: usize) -> &[T]
    requires { count ≤ length items.now }
    ensures { result.now ≡ drop count items.now }
{
    &items[count..]
}
