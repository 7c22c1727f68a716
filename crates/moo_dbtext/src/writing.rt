//! Writing a saved world.

ghost use Rattle.std.specs.Prelude.{◌≡◌, length, IfOk};
ghost use Rattle.moo_dbtext_object.specs.Lines.{IsCountOf, limited, unlimited};
ghost use Rattle.moo_dbtext_read.specs.Saved.{saved_of, SpellsSaved, SpellsSavedWithin};
ghost use Rattle.moo_dbtext.specs.Canonical.{canonical};

use crate::write_world;
use moo_dbtext_read::Saved;
use moo_world::World;
use std::alloc::{AllocError, Global};

/// Returns the database text of a world and of the numbers of the connected players, for a caller that keeps the two
/// apart. Fails only if memory runs out.
pub fn write_world_and_connected(
    alloc: Global,
    world: &World,
    connected: &[i32],
) -> Result<Vec<u8>, AllocError>
    // The text is the canonical one.
    ensures canonical { IfOk result (λ bytes. bytes.items ≡ canonical (record { world = world.now; connected = connected.now })) }
    // The text spells the two, unless the number of connected players exceeds 32 bits.
    ensures spelled { IfOk result (λ bytes. IsCountOf unlimited (length connected.now) → SpellsSaved bytes.items (record { world = world.now; connected = connected.now })) }
    // The text is within the size limits, if the number of connected players is.
    ensures within { IfOk result (λ bytes. IsCountOf limited (length connected.now) → SpellsSavedWithin bytes.items (record { world = world.now; connected = connected.now })) }
{
    world.is_well_formed();
    let bytes = write_world(alloc, world, connected)?;
    Ok(bytes)
}

/// Returns the database text of a saved world. Fails only if memory runs out.
pub fn write_db(alloc: Global, saved: &Saved) -> Result<Vec<u8>, AllocError>
    // The text is the canonical one.
    ensures canonical { IfOk result (λ bytes. bytes.items ≡ canonical (saved_of saved.now)) }
    // The text spells the saved world, unless the number of connected players exceeds 32 bits.
    ensures spelled { IfOk result (λ bytes. IsCountOf unlimited (length saved.now.connected.items) → SpellsSaved bytes.items (saved_of saved.now)) }
    // The text is within the size limits, if the number of connected players is.
    ensures within { IfOk result (λ bytes. IsCountOf limited (length saved.now.connected.items) → SpellsSavedWithin bytes.items (saved_of saved.now)) }
{
    write_world_and_connected(alloc, &saved.world, &saved.connected)
}
