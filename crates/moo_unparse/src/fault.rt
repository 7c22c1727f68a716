//! The errors of listings.
ghost use Rattle.std.specs.Prelude.{◌≡◌};

use std::alloc::AllocError;
use thiserror::Error;

/// Out of memory.
#[derive(Debug, Drop, Error)]
#[error("out of memory")]
pub struct Memory;

impl From<AllocError> for Memory {
    fn from(_error: AllocError) -> Memory {
        Memory
    }
}

/// Why a listing that may be longer than the full one is refused.
#[derive(Debug, Drop, Error)]
pub enum ListFault {
    /// A line is too long for a string.
    #[error("line too long")]
    TooHeavy,
    /// Out of memory.
    #[error("out of memory")]
    Memory,
}

impl From<AllocError> for ListFault {
    ghost use Rattle.moo_unparse.specs.declared.fault.ListFault.TheVariants.{Memory};

    ghost from_gives = { λ _ fault. fault ≡ Memory };

    fn from(_error: AllocError) -> ListFault {
        ListFault::Memory
    }
}
