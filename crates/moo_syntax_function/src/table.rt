//! A row of the table of functions: what a function takes.
ghost use Rattle.std.specs.Prelude.{◌≡◌};
ghost use Rattle.moo_syntax_function.specs.Table as table;
ghost use Rattle.moo_syntax_function.specs.Check.{seen};

/// The kind of an argument.
#[derive(Clone, Copy, PartialEq, Eq, Debug)]
pub enum Kind {
    /// Any value.
    Any,
    /// An integer.
    Integer,
    /// An error.
    Error,
    /// A string.
    Text,
    /// A list.
    List,
    /// A string or a list.
    TextOrList,
    /// An object that has to be valid.
    ValidObject,
    /// An object that need not be valid.
    AnyObject,
    /// A verb of an object: a string that matches one of its names, or its place, counted from 1.
    Verb,
    /// A new property's `{owner, perms}`.
    PropertyInfo,
    /// A change of a property: `{owner, perms}` or `{owner, perms, name}`.
    PropertyChange,
    /// A verb's `{owner, perms, names}`.
    VerbInfo,
    /// A verb's argument specifiers: `{dobj, prep, iobj}`.
    VerbArguments,
    /// The lines of a program: a list of strings.
    Lines,
}

/// A row of the table: the function's name, the arguments that it needs, those that may be left out, and the kind of
/// any number more.
#[derive(Clone, Copy)]
pub struct Row {
    pub name: &'static str,
    pub needed: &'static [Kind],
    pub optional: &'static [Kind],
    pub more: Option<Kind>,
}

/// Makes a row of a function that takes just these arguments.
#[inline(always)]
pub(crate) const fn takes(name: &'static str, needed: &'static [Kind]) -> Row
    ensures { seen result ≡ table.takes name.now needed.now }
{
    takes_perhaps(name, needed, &[])
}

/// Makes a row of a function that takes these arguments and may take the optional ones.
#[inline(always)]
pub(crate) const fn takes_perhaps(
    name: &'static str,
    needed: &'static [Kind],
    optional: &'static [Kind],
) -> Row
    ensures { seen result ≡ table.takes_perhaps name.now needed.now optional.now }
{
    Row {
        name,
        needed,
        optional,
        more: None,
    }
}

/// Makes a row of a function that takes these arguments and any number more.
#[inline(always)]
pub(crate) const fn takes_more(name: &'static str, needed: &'static [Kind], more: Kind) -> Row
    ensures { seen result ≡ table.takes_more name.now needed.now more }
{
    Row {
        name,
        needed,
        optional: &[],
        more: Some(more),
    }
}
