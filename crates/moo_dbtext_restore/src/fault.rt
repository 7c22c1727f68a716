//! The reasons why records have no world.

use std::alloc::AllocError;
use thiserror::Error;

/// The reason why no world can be restored from records.
#[derive(Clone, Copy, Debug, PartialEq, Eq, Error)]
pub enum RestoreFault {
    /// The object's place in the tree of parents or of locations is unsound, or it defines a name twice, or a name
    /// that an ancestor defines.
    #[error("BadHierarchy #{0}")]
    Hierarchy(usize),
    /// The object has more or fewer cells than definitions on it and its ancestors.
    #[error("PropertyCount #{0}")]
    PropertyCount(usize),
    /// Memory ran out.
    #[error("Memory")]
    Memory,
}

impl From<AllocError> for RestoreFault {
    ghost use Rattle.std.specs.Prelude.{◌≡◌};
    ghost use Rattle.moo_dbtext_restore.specs.declared.fault.RestoreFault.TheVariants.{Memory};

    ghost from_gives = { λ _ fault. fault ≡ Memory };

    fn from(_error: AllocError) -> RestoreFault {
        RestoreFault::Memory
    }
}
