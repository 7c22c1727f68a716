//! Names compared without regard to case.
ghost use Rattle.std.specs.Prelude.{◌≡◌};
ghost use Rattle.std.specs.Str.{bytes_eq};
ghost use Rattle.moo_value.specs.Compare.{folded};

use moo_value::MooStr;

/// Returns whether two names are equal, letters folded.
pub fn is_same_name(a: &MooStr, b: &MooStr) -> bool
    ensures { result ≡ bytes_eq (folded a.now) (folded b.now) }
{
    is_named(a, b.as_bytes())
}

/// Returns whether a name equals these bytes, letters folded.
pub(crate) fn is_named(own: &MooStr, name: &[u8]) -> bool
    ensures { result ≡ bytes_eq (folded own.now) (folded name.now) }
{
    own.as_bytes().eq_ignore_ascii_case(name)
}
