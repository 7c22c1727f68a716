//! Laws on sequences of calls, for any disk.
ghost use Rattle.std.specs.Prelude.{◌≡◌, ◌⊎◌, ◌↔◌, ◌≤◌, ℕ, List, Contains};
ghost use Rattle.moo_disk.specs.Disk.{Gains, IsLeftBy, KeepsMain, KeepsSpare, LeavesOnly};
ghost use Rattle.moo_disk.specs.FailAt.{failing_kind, inner_of};
ghost use Rattle.moo_disk.specs.Histories.{History};
ghost use Rattle.moo_disk.specs.declared.fail_at.FailAt.{FailAt};

use crate::{Disk, FailAt};

/// A sequence of calls brings the texts that each of the calls brings, and the clock never goes back.
pub fn a_history_gains<D: Disk>()
    ensures { (texts : List (List ℕ)) (old new : D) (disks : List D)
        → History D.kind.view texts old disks new → Gains (Contains texts) (D.kind.view old) (D.kind.view new) }
{}

/// Every text that main has had since a moment, even if for one call only, is one that a crash since then may have
/// left.
pub fn each_main_text_counts<D: Disk>()
    ensures { (texts : List (List ℕ)) (first disk last : D) (before after : List D)
        → D.kind.honest disk → History D.kind.view texts first before disk → History D.kind.view texts disk after last
        → (D.kind.view last).left_since (D.kind.view first).clock (D.kind.view disk).main_text }
{}

/// From a moment on at which a crash leaves one text only, it leaves that text, or one that a later call brought.
pub fn a_settled_text_stays<D: Disk>()
    ensures { (texts : List (List ℕ)) (disk last : D) (after : List D) (text c : List ℕ)
        → D.kind.honest disk → LeavesOnly text (D.kind.view disk) → History D.kind.view texts disk after last
        → (D.kind.view last).left_since (D.kind.view disk).clock c → (c ≡ text) ⊎ Contains texts c }
{}

/// The text that a crash leaves under main is one that a crash since any earlier moment may have left.
pub fn a_crash_leaves_what_may_be_left<D: Disk>()
    ensures { (disk left : D) (t : ℕ) → D.kind.honest disk → t ≤ (D.kind.view disk).clock
        → IsLeftBy (D.kind.view disk) (D.kind.view left) → (D.kind.view disk).left_since t (D.kind.view left).main_text }
{}

/// Between two calls a disk may be set to fail in another call, or in none. This writes and gains nothing, and leaves
/// the disk as honest as before.
pub fn a_failing_disk_keeps_what_it_had<D: Disk>()
    ensures main { (old new : FailAt D) → inner_of new ≡ inner_of old
        → KeepsMain ((failing_kind D.kind).view old) ((failing_kind D.kind).view new) }
    ensures spare { (old new : FailAt D) → inner_of new ≡ inner_of old
        → KeepsSpare ((failing_kind D.kind).view old) ((failing_kind D.kind).view new) }
    ensures honest { (old new : FailAt D) → inner_of new ≡ inner_of old
        → (failing_kind D.kind).honest old ↔ (failing_kind D.kind).honest new }
    ensures has_spare { (old new : FailAt D) → inner_of new ≡ inner_of old
        → (failing_kind D.kind).has_spare old ↔ (failing_kind D.kind).has_spare new }
{}
