//! Laws on what is written of worlds.

ghost use Rattle.std.specs.Prelude.{ℤ, List, length};
ghost use Rattle.moo_world_table.specs.World.{World, IsWellFormed};
ghost use Rattle.moo_dbtext_object.specs.Lines.{Sizes, IsCountOf};
ghost use Rattle.moo_dbtext_record.specs.Writing.{IsWritable};
ghost use Rattle.moo_dbtext.specs.Held.{IsHeld};
ghost use Rattle.moo_dbtext.specs.Texts.{text_of_world};

/// The text that is written of a world can be read back. It is within the size limits if the number of connected
/// players is.
pub fn worlds_are_writable()
    ensures { (s : Sizes) (w : World) (connected : List ℤ) → IsWellFormed w → IsHeld w connected → IsCountOf s (length connected) → IsWritable s (text_of_world w connected) }
{}
