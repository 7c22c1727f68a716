//! Laws on saved worlds.

ghost use Rattle.std.specs.Prelude.{◌≡◌, ℕ, List};
ghost use Rattle.moo_dbtext_read.specs.Saved.{Saved, SpellsSaved};

/// Bytes spell at most one saved world.
pub fn bytes_spell_one_saved_world()
    ensures { (bytes : List ℕ) (s u : Saved) → SpellsSaved bytes s → SpellsSaved bytes u → s ≡ u }
{}
