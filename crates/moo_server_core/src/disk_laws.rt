//! Laws on a disk that is handed on between two calls of a server.
ghost use Rattle.std.specs.Prelude.{◌≡◌};
ghost use Rattle.moo_disk.specs.FailAt.{failing_kind, inner_of};
ghost use Rattle.moo_disk.specs.Memory.{memory_kind};
ghost use Rattle.moo_disk.specs.StopAt.{inner_of as stopping_inner_of, stopping_kind};
ghost use Rattle.moo_disk.specs.declared.fail_at.FailAt.{FailAt};
ghost use Rattle.moo_disk.specs.declared.memory.MemoryDisk.{MemoryDisk};
ghost use Rattle.moo_disk.specs.declared.stop_at.StopAt.{StopAt};
ghost use Rattle.moo_server_core.specs.Calls.{HandsOn, One, Other, lent};

use moo_disk::Disk;

/// Shows that a disk is handed on if it is put into a `FailAt` between two calls, taken out of one, or put into another one.
/// Main then reads as before, and a crash leaves no more than before.
pub fn a_failing_disk_is_handed_on<D: Disk>()
    ensures put_in { (disk : D) (failing : FailAt D) → inner_of failing ≡ disk
        → HandsOn (lent D.kind (failing_kind D.kind)) (One disk) (Other failing) }
    ensures taken_out { (failing : FailAt D) (disk : D) → disk ≡ inner_of failing
        → HandsOn (lent D.kind (failing_kind D.kind)) (Other failing) (One disk) }
    ensures put_again { (old new : FailAt D) → inner_of new ≡ inner_of old
        → HandsOn (lent D.kind (failing_kind D.kind)) (Other old) (Other new) }
{}

/// Shows that a disk in memory is handed on if it is put into a `StopAt` between two calls, or taken out of one.
pub fn a_stopping_disk_is_handed_on()
    ensures put_in { (disk : MemoryDisk) (stopping : StopAt) → stopping_inner_of stopping ≡ disk
        → HandsOn (lent memory_kind stopping_kind) (One disk) (Other stopping) }
    ensures taken_out { (stopping : StopAt) (disk : MemoryDisk) → disk ≡ stopping_inner_of stopping
        → HandsOn (lent memory_kind stopping_kind) (Other stopping) (One disk) }
{}
