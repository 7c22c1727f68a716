//! Errors of the world as failures of a node.
ghost use Rattle.std.specs.Prelude.{◌≡◌};
ghost use Rattle.moo_eval_access.specs.Fault.{failed};

use moo_eval_frame::{Failure, Stop};
use moo_world::WorldFault;

/// Converts a fault of the world to a failure of a node.
pub fn failed(fault: WorldFault) -> Failure
    ensures { result ≡ failed fault }
{
    match fault {
        WorldFault::Raise(code) => Failure::Fails(code),
        WorldFault::Memory => Failure::Stops(Stop::Memory),
    }
}
