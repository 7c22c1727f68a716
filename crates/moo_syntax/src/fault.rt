//! The parser's faults.
use std::alloc::{AllocError, AllocFailed};

/// Why the parser read no tree.
#[derive(Clone, Copy, PartialEq, Eq)]
pub enum Fault {
    /// No program continues with the next token.
    Unexpected,
    /// The expression before the `=` that comes next is no target.
    BadTarget,
    /// The name before the parenthesis that comes next is no function that may be called.
    UnknownFunction,
    /// The jump that comes next is in no loop, or the name that comes next is that of no loop around it.
    BadLoopName,
    /// A path would have more nodes than a program may have.
    TooDeep,
    /// Out of memory.
    Memory,
}

impl From<AllocError> for Fault {
    ghost use Rattle.std.specs.Prelude.{◌≡◌};
    ghost use Rattle.moo_syntax.specs.declared.fault.Fault.TheVariants.{Memory};

    ghost from_gives = { λ _ e. e ≡ Memory };

    fn from(_error: AllocError) -> Fault {
        Fault::Memory
    }
}

impl<T: Drop> From<AllocFailed<T>> for Fault {
    ghost use Rattle.std.specs.Prelude.{◌≡◌};
    ghost use Rattle.moo_syntax.specs.declared.fault.Fault.TheVariants.{Memory};

    ghost from_gives = { λ _ e. e ≡ Memory };

    fn from(_error: AllocFailed<T>) -> Fault {
        Fault::Memory
    }
}
