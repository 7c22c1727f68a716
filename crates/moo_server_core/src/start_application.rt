//! Applications that start from a saved world.
ghost use Rattle.std.specs.Prelude.{◌≡◌, ◌↔◌, ℕ, List, IfOk};
ghost use Rattle.moo_dbtext_read.specs.Saved as saving;
ghost use Rattle.moo_dbtext_read.specs.Saved.{saved_of, SpellsSavedWithin};
ghost use Rattle.moo_dbtext.specs.Canonical.{canonical};
ghost use Rattle.moo_server_core.specs.Application.{Started};

use crate::{Application, Requests};
use moo_dbtext_read::Saved;
use std::alloc::{AllocError, Global};

/// Is an application that starts from a saved world and is saved as a database text.
pub trait StartApplication: Application {
    /// Starts from a saved world, and runs the hooks of the start. `moment` is in seconds. Fails only if memory runs
    /// out.
    fn start(alloc: Global, saved: Saved, moment: u32) -> Result<(Self, Requests), AllocError>
        ensures starts { IfOk result (λ given. Started Self.layer (saved_of saved) moment given.0 given.1) };

    /// The text of a saved world is its canonical one.
    ghost text_is: { (s : saving.Saved) → Self.layer.meaning.text_of s ≡ canonical s };

    /// A text spells the saved world that it spells, within the limits, as a database text.
    ghost spells_is: { (c : List ℕ) (s : saving.Saved) → Self.layer.meaning.Spells c s ↔ SpellsSavedWithin c s };
}
