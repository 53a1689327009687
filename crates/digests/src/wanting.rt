//! A value, if it is wanted.
ghost use Rattle.std.specs.Prelude.{◌≡◌, is_some, IfSome};

/// The value, if it is wanted.
pub(crate) fn if_wanted<T: Copy>(is_wanted: bool, value: T) -> Option<T>
    ensures there { is_some result ≡ is_wanted }
    ensures is { IfSome result (λ v. v ≡ value) }
{
    if is_wanted { Some(value) } else { None }
}
