//! Laws on links, records and worlds.

ghost use Rattle.std.specs.Prelude.{◌≡◌, ◌≤◌, ℕ, List, Option, None, length, FitsSigned};
ghost use Rattle.std.specs.Int.{w32};
ghost use Rattle.std.specs.List.{All};
ghost use Rattle.moo_world_tree.specs.Forest.{Links, IsForest};
ghost use Rattle.moo_world_object.specs.Objects.{Object};
ghost use Rattle.moo_world_table.specs.World.{World, most, IsWellFormed};
ghost use Rattle.moo_world_table.specs.Restoring.{AreParts, restored_world};
ghost use Rattle.moo_dbtext_restore.specs.First.{IsFirst};
ghost use Rattle.moo_dbtext_restore.specs.Made.{AreMade, AreForestsOf};
ghost use Rattle.moo_dbtext_restore.specs.Faults.{IsWellPlaced, HasItsCells, IsHierarchyFault, IsCountFault};
ghost use Rattle.moo_dbtext_restore.specs.Links.{IsSound, IsTreeOf};
ghost use Rattle.moo_dbtext_restore.specs.Recorded.{records_of};
ghost use Rattle.moo_dbtext_restore.specs.Records.{Records};
ghost use Rattle.moo_dbtext_restore.specs.Says.{Says};
ghost use Rattle.moo_dbtext_restore.specs.Shapes.{IsShaped};

use crate::link::Link;

/// Links describe at most one forest.
#[tactic(auto, using(crate::proofs::Trees::one_tree))]
pub fn links_say_one_tree(_links: &[Option<Link>])
    ensures { (one other : List Links) → IsTreeOf _links.now one → IsTreeOf _links.now other → one ≡ other }
{}

/// If links describe a forest, every one of them is sound.
pub fn links_of_a_forest_are_sound(_links: &[Option<Link>])
    ensures { (tree : List Links) (x : ℕ) → IsForest tree → IsTreeOf _links.now tree → IsSound _links.now x }
{}

/// If an object is at fault, a world that the records describe lacks the shape of a world, whatever its sizes.
pub fn records_at_fault_say_no_world()
    ensures hierarchy { (r : Records) (w : World) (x : ℕ) → IsHierarchyFault r x → Says r w → ¬ (IsShaped w) }
    ensures count { (r : Records) (w : World) (x : ℕ) → IsCountFault r x → Says r w → ¬ (IsShaped w) }
{}

/// Records describe at most one world.
pub fn records_say_one_world()
    ensures { (r : Records) (v w : World) → Says r v → Says r w → v ≡ w }
{}

/// Every well-formed world has the shape of a world.
pub fn well_formed_worlds_are_shaped()
    ensures { (w : World) → IsWellFormed w → IsShaped w }
{}

/// The records of a well-formed world describe it.
pub fn records_of_a_world_say_it()
    ensures { (w : World) → IsWellFormed w → Says (records_of w) w }
{}

/// If no object is at fault, a world can be restored from objects made of their records, and the records describe
/// that world.
pub fn records_without_fault_say_a_world()
    ensures parts { (r : Records) (made : List (Option Object)) (parents places : List Links) → AreMade r made → AreForestsOf r parents places
        → IsFirst (IsWellPlaced r) (length r.objects) None → IsFirst (HasItsCells r) (length r.objects) None
        → length r.objects ≤ most → length r.players ≤ most → All (FitsSigned w32) r.players → AreParts made parents places r.players }
    ensures world { (r : Records) (made : List (Option Object)) (parents places : List Links) → AreMade r made → AreForestsOf r parents places
        → IsFirst (IsWellPlaced r) (length r.objects) None → IsFirst (HasItsCells r) (length r.objects) None
        → length r.objects ≤ most → length r.players ≤ most → All (FitsSigned w32) r.players → Says r (restored_world made parents places r.players) }
{}
