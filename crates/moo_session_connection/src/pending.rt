//! The connections for which a server has something to do.
ghost use Rattle.std.specs.Prelude.{◌≡◌, ◌≢◌, ◌⊎◌, ◌<◌, ℕ, [], false, true, Contains, IfOk};
ghost use Rattle.std.specs.List.{AllPairs};
ghost use Rattle.moo_session_connection.specs.Connections.{is_leaving};
ghost use Rattle.moo_session_connection.specs.Outbox.{sent_waiting};

use crate::connections::Connections;
use crate::outbox::Outbox;
use std::alloc::AllocError;

/// Returns the numbers for which bytes wait and those of the connections that are leaving, and no others, each once, by
/// rising number. Fails only if memory runs out.
pub fn pending_numbers(outbox: &Outbox, connections: &Connections) -> Result<Vec<u16>, AllocError>
    ensures all { IfOk result (λ numbers. (c : ℕ) → (Contains numbers.items c → ⊥)
        → (sent_waiting outbox.now c ≡ []) × (is_leaving c connections.now ≡ false)) }
    ensures only { IfOk result (λ numbers. (c : ℕ) → Contains numbers.items c
        → (sent_waiting outbox.now c ≢ []) ⊎ (is_leaving c connections.now ≡ true)) }
    ensures rising { IfOk result (λ numbers. AllPairs (λ a b. a < b) numbers.items) }
{
    let mut numbers = outbox.numbers()?;
    numbers.extend_from_slice(connections.leaving())?;
    numbers.sort_unstable();
    numbers.dedup();
    Ok(numbers)
}
