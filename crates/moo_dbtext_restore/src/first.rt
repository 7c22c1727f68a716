//! The least of several numbers.

ghost use Rattle.std.specs.Prelude.{◌≡◌};
ghost use Rattle.moo_dbtext_restore.specs.First.{least_of};

/// Returns the lesser of two numbers, or the one that is given, if any.
pub(crate) fn least_of(a: Option<usize>, b: Option<usize>) -> Option<usize>
    ensures { result ≡ least_of a b }
{
    match (a, b) {
        (Some(x), Some(y)) => Some(if y < x { y } else { x }),
        (Some(x), None) => Some(x),
        (None, b) => b,
    }
}
