//! The reasons why a server can't start.
ghost use Rattle.std.specs.Prelude.{◌≡◌};
ghost use Rattle.moo_checkpoint.specs.declared.open_fault.OpenFault.TheVariants.{Device, Memory};
ghost use Rattle.moo_checkpoint.specs.Recovering.{IsToldAs};

use moo_dbtext_record::{DbFault, DbFaultKind};
use moo_disk::DiskFault;
use std::alloc::AllocError;
use thiserror::Error;

/// The reason why a server has no world to start from.
#[derive(Clone, Copy, Debug, PartialEq, Eq, Error)]
pub enum OpenFault {
    /// The device failed, or did what no disk does: it returned more bytes than the buffer holds, or a text without
    /// an end.
    #[error("refused: Device")]
    Device,
    /// The main text is no database text.
    #[error("{0}")]
    Db(DbFault),
    /// Memory ran out.
    #[error("refused: Memory")]
    Memory,
}

impl From<DiskFault> for OpenFault {
    ghost from_gives = { λ _ e. e ≡ Device };

    fn from(_fault: DiskFault) -> OpenFault {
        OpenFault::Device
    }
}

impl From<AllocError> for OpenFault {
    ghost from_gives = { λ _ e. e ≡ Memory };

    fn from(_fault: AllocError) -> OpenFault {
        OpenFault::Memory
    }
}

impl From<DbFault> for OpenFault {
    ghost from_gives = { IsToldAs };

    fn from(fault: DbFault) -> OpenFault {
        match fault.kind {
            DbFaultKind::Memory => OpenFault::Memory,
            _ => OpenFault::Db(fault),
        }
    }
}
