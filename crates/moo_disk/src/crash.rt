// Disks whose crashes can be simulated.
ghost use Rattle.std.specs.Prelude.{◌≡◌, ◌↔◌, ◌<◌, ◌∷◌, [], ℕ, List, length, Contains, Some, IfErr, IfOk, IsOk, slice_get};
ghost use Rattle.moo_disk.specs.Disk.{IsLeftBy};
ghost use Rattle.moo_disk.specs.Texts.{IsEachOnce};

use crate::{Disk, MemoryDisk};

/// A disk that can be left as a crash leaves it, with any of the texts that the crash may leave.
pub trait CrashDisk: Disk {
    /// The texts that a crash now may leave under main.
    ghost images: { Self → List (List ℕ) };

    /// Returns the disk that a crash leaves with the i-th of the texts, from 0. If there is no i-th text, returns the
    /// disk itself as an error.
    fn crash(self, i: usize) -> Result<Self, Self>
        ensures count { IsOk result ↔ (i < length (images self)) }
        ensures image { Self.kind.honest self
            → IfOk result (λ left. slice_get (images self) i ≡ Some (Self.kind.view left).main_text) }
        ensures alone { Self.kind.honest self
            → IfOk result (λ left. images left ≡ (Self.kind.view left).main_text ∷ []) }
        ensures left { Self.kind.honest self
            → IfOk result (λ left. IsLeftBy (Self.kind.view self) (Self.kind.view left)) }
        ensures honest { IfOk result (λ left. Self.kind.honest self ↔ Self.kind.honest left) }
        ensures same { IfErr result (λ same. same ≡ self) };

    /// These are the texts that a crash may leave.
    ghost images_are_left: { (disk : Self) (c : List ℕ) → Self.kind.honest disk
        → Contains (images disk) c ↔ (Self.kind.view disk).may_leave c };

    /// Each text is listed once.
    ghost each_once: { (disk : Self) → IsEachOnce (images disk) };
}

impl CrashDisk for MemoryDisk {
    ghost use Rattle.moo_disk.specs.Memory.{images};

    ghost images = { images };

    fn crash(self, i: usize) -> Result<MemoryDisk, MemoryDisk> {
        MemoryDisk::crash(self, i)
    }

    ghost images_are_left = { λ d c _. (λ has. has, λ has. has) };

    ghost each_once = { λ d. d.set.each_once };
}
