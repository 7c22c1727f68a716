//! Links that join an object to others in one tree.

ghost use Rattle.std.specs.Prelude.{◌≡◌, ◌↔◌, ◌<◌, length, IsTrue};
ghost use Rattle.std.specs.Option.{ForSome};
ghost use Rattle.moo_dbtext_restore.specs.Links.{link_of, numbered, above_in, IsPlace};

/// The numbers that join an object to others in one tree, each -1 for none.
#[derive(Clone, Copy, Debug, PartialEq, Eq)]
pub struct Link {
    /// Its parent in this tree.
    pub above: i32,
    /// The first of its children in this tree.
    pub first: i32,
    /// The next child of its parent.
    pub next: i32,
}

/// Returns the links of object `x`, or links with -1 only if there is none.
pub(crate) fn link_of(links: &[Option<Link>], x: usize) -> Link
    ensures { result ≡ link_of links.now x }
{
    match links.get(x) {
        Some(Some(link)) => *link,
        _ => Link {
            above: -1,
            first: -1,
            next: -1,
        },
    }
}

/// Returns the index of the object with this number, if there is one.
pub(crate) fn numbered(links: &[Option<Link>], number: i32) -> Option<usize>
    ensures value { result ≡ numbered links.now number }
    ensures within { ForSome result (λ x. x < length links.now) }
{
    let x = usize::try_from(number).ok()?;
    match links.get(x) {
        Some(Some(_)) => Some(x),
        _ => None,
    }
}

/// Returns the object right above `x`.
pub(crate) fn above_in(links: &[Option<Link>], x: usize) -> Option<usize>
    ensures value { result ≡ above_in links.now x }
    ensures within { ForSome result (λ up. up < length links.now) }
{
    numbered(links, link_of(links, x).above)
}

/// Returns whether the number is an object's, or -1.
pub(crate) fn is_place(links: &[Option<Link>], number: i32) -> bool
    ensures { IsTrue result ↔ IsPlace links.now number }
{
    number == -1 || numbered(links, number).is_some()
}
