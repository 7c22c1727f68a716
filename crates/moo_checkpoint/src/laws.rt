//! Laws on sequences of turns, for any disk.
ghost use Rattle.std.specs.Prelude.{◌≡◌, ◌↔◌, ◌+◌, ◌<◌, List, length};
ghost use Rattle.moo_disk.specs.Disk.{Gains, LeavesOnly};
ghost use Rattle.moo_disk.specs.FailAt.{failing_kind, inner_of};
ghost use Rattle.moo_disk.specs.Memory.{memory_kind};
ghost use Rattle.moo_disk.specs.StopAt.{inner_of as memory_within, stopping_kind};
ghost use Rattle.moo_disk.specs.declared.fail_at.FailAt.{FailAt};
ghost use Rattle.moo_disk.specs.declared.stop_at.StopAt.{StopAt};
ghost use Rattle.moo_checkpoint.specs.Checkpoint.{Continues, IsFresh, pieces, text_of, turns_left};
ghost use Rattle.moo_checkpoint.specs.Turns.{MoreTurns, Taken, Turned};
ghost use Rattle.moo_checkpoint.specs.declared.checkpoint.Checkpoint.{Checkpoint};

use crate::Turn;
use moo_disk::Disk;

/// Before its first turn, and after one that ended it, a checkpoint takes any disk.
pub fn a_fresh_checkpoint_takes_any_disk<D: Disk>()
    ensures { (checkpoint : Checkpoint) (disk : D) → IsFresh checkpoint
        → Continues D.kind checkpoint disk }
{}

/// A fresh checkpoint has one turn for each piece, and four more.
pub fn a_fresh_checkpoint_has_all_turns()
    ensures { (checkpoint : Checkpoint) → IsFresh checkpoint
        → turns_left checkpoint ≡ pieces (length (text_of checkpoint)) + 4 }
{}

/// Between two turns a disk may be wrapped so that it fails, or such a wrapper may be removed.
pub fn a_failing_disk_goes_on<D: Disk>()
    ensures { (checkpoint : Checkpoint) (disk : FailAt D)
        → Continues D.kind checkpoint (inner_of disk)
        ↔ Continues (failing_kind D.kind) checkpoint disk }
{}

/// A disk in memory may be wrapped so that it stops, or such a wrapper may be removed.
pub fn a_stopping_disk_goes_on()
    ensures { (checkpoint : Checkpoint) (disk : StopAt)
        → Continues memory_kind checkpoint (memory_within disk)
        ↔ Continues stopping_kind checkpoint disk }
{}

/// Each turn that returns `More` takes one of the turns left. From the start there are fewer of them than pieces + 4,
/// so the turn with that number is the last at the latest. At every moment a crash may leave the checkpoint's text,
/// or what it might have left before.
pub fn more_turns_come<D: Disk>()
    ensures left { (old new : Checkpoint) (before after : D) (turns : List (Taken D))
        → MoreTurns D.kind old before turns new after
        → turns_left new + length turns ≡ turns_left old }
    ensures fewer { (old new : Checkpoint) (before after : D) (turns : List (Taken D))
        → IsFresh old → MoreTurns D.kind old before turns new after
        → length turns < pieces (length (text_of old)) + 4 }
    ensures crash { (old new : Checkpoint) (before after : D) (turns : List (Taken D))
        → MoreTurns D.kind old before turns new after
        → Gains (λ c. c ≡ text_of old) (D.kind.view before) (D.kind.view after) }
{}

/// A checkpoint is done in the last of its turns, which is number pieces + 4 from its start. Then a crash leaves only
/// its text. However the last turn ends, a crash since the start leaves that text, or what it might have left before.
pub fn a_checkpoint_is_done_in_its_last_turn<D: Disk>()
    ensures number { (old mid new : Checkpoint) (before disk after : D) (turns : List (Taken D))
        → IsFresh old
        → MoreTurns D.kind old before turns mid disk → Turned D.kind Turn.Done mid new disk after
        → length turns + 1 ≡ pieces (length (text_of old)) + 4 }
    ensures crash { (answer : Turn) (old mid new : Checkpoint) (before disk after : D) (turns : List (Taken D))
        → MoreTurns D.kind old before turns mid disk → Turned D.kind answer mid new disk after
        → Gains (λ c. c ≡ text_of old) (D.kind.view before) (D.kind.view after) }
    ensures durable { (old mid new : Checkpoint) (before disk after : D) (turns : List (Taken D))
        → MoreTurns D.kind old before turns mid disk → Turned D.kind Turn.Done mid new disk after
        → LeavesOnly (text_of old) (D.kind.view after) }
{}
