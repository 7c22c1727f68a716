//! Laws of the table of functions.
ghost use Rattle.moo_syntax_function.specs.Laws.{CallsByName};

/// Proves that a name calls a function exactly if, in lower case, it is the function's name.
pub fn calls_by_name()
    ensures { CallsByName }
{}
