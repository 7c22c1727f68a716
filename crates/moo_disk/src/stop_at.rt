// A disk in memory that stops at a call, as a machine does whose power fails.
ghost use Rattle.std.specs.Prelude.{◌≡◌, ◌⊎◌, ◌↔◌, ◌≤◌, ◌<◌, ◌+◌, ◌-◌, ◌/◌, ◌++◌, ◌∷◌, [], IfOk, IsOk, IsSome, OnErr, OnOk, length, take, true};
ghost use Rattle.std.specs.Option.{option_map};
ghost use Rattle.moo_disk.specs.Disk.{Counts, Gains, HasRisen, IsBroughtBy, KeepsMain, KeepsSpare, LeavesOnly, Reads};

use crate::{Disk, DiskFault, MemoryDisk};

/// The point within a call at which a disk stops.
#[derive(Clone, Copy, Debug, PartialEq, Eq)]
pub enum Place {
    /// Before it has done anything.
    Before,
    /// After a part of the call. An `append` has written the first half of its bytes. A `rename` lets a crash leave
    /// the spare's text, while main reads as before. If memory runs out for this, which counts as a failure of the
    /// wrapped disk, and in all other calls, nothing has been done.
    Within,
}

/// A disk that stops at its k-th call. Calls before it pass; it and all later calls return a fault.
#[derive(Drop)]
pub struct StopAt {
    disk: MemoryDisk,
    /// The number of calls up to and including the one that it stops at, or 0 once it has stopped.
    left: u64,
    place: Place,
    /// The number of refused calls in which the wrapped disk didn't fail.
    refused: u64,
}

// The outcome of a call.
#[derive(Clone, Copy)]
enum Call {
    Passes,
    CutShort,
    Refused,
}

impl StopAt {
    ghost use Rattle.moo_disk.specs.StopAt.{Becomes, failures_of, inner_of, left_of, place_of, refused_of};

    /// Wraps a disk. The first call is number 1; with 0 it has stopped already.
    pub fn new(disk: MemoryDisk, k: u64, place: Place) -> StopAt
        ensures inner { inner_of result ≡ disk }
        ensures left { left_of result ≡ k }
        ensures place { place_of result ≡ place }
        ensures refused { refused_of result ≡ 0 }
    {
        StopAt {
            disk,
            left: k,
            place,
            refused: 0,
        }
    }

    /// Returns the wrapped disk, as the stop left it.
    pub fn into_inner(self) -> MemoryDisk
        ensures { result ≡ inner_of self }
    {
        let StopAt {
            disk,
            left: _,
            place: _,
            refused: _,
        } = self;
        disk
    }

    // Counts a call, and returns its outcome.
    fn count(&mut self) -> Call
        ensures call { Becomes self.old result }
        ensures left { left_of self.new ≡ left_of self.old - 1 }
        ensures place { place_of self.new ≡ place_of self.old }
        ensures inner { inner_of self.new ≡ inner_of self.old }
        ensures refused { refused_of self.new ≡ refused_of self.old }
    {
        let left = self.left;
        self.left = left.saturating_sub(1);
        if left > 1 {
            return Call::Passes;
        }
        if left == 1 && matches!(self.place, Place::Within) {
            return Call::CutShort;
        }
        Call::Refused
    }

    // Counts one more refused call.
    fn refuse(&mut self) -> DiskFault
        ensures failures { HasRisen (failures_of self.old) (failures_of self.new) }
        ensures left { left_of self.new ≡ left_of self.old }
        ensures place { place_of self.new ≡ place_of self.old }
        ensures inner { inner_of self.new ≡ inner_of self.old }
    {
        self.refused = self.refused.saturating_add(1);
        DiskFault
    }
}

// Returns the first half of the bytes, rounded down.
fn first_half(bytes: &[u8]) -> &[u8]
    ensures { result.now ≡ take (length bytes.now / 2) bytes.now }
{
    &bytes[..bytes.len() / 2]
}

impl Disk for StopAt {
    ghost use Rattle.moo_disk.specs.StopAt.{IsWithin, StopsFrom, StopsWithin, failures_of, images, inner_of, left_of, stopping_kind, view_of};
    ghost use Rattle.moo_disk.specs.Texts.{Brings, BringsSpare, first_at};
    ghost use Rattle.moo_disk.specs.TextLaws.{main_is_left, more_from, now_since_now};
    ghost use Rattle.moo_disk.specs.CrashSet.{texts_of};

    ghost kind = { stopping_kind };

    fn create_spare(&mut self) -> Result<(), DiskFault>
        ensures has_spare { OnOk result (IsSome (view_of self.new).spare) }
        ensures created { OnOk result ((view_of self.new).spare ≡ Some []) }
        ensures main { KeepsMain (view_of self.old) (view_of self.new) }
        ensures fault { Counts (failures_of self.old) (failures_of self.new) result }
        ensures stops { StopsFrom self.old self.new result }
        ensures done { 1 < left_of self.old → IsOk result }
        ensures images { images self.new ≡ images self.old }
        ensures nothing { left_of self.old ≤ 1 → inner_of self.new ≡ inner_of self.old }
    {
        if let Call::Passes = self.count() {
            return self.disk.create_spare();
        }
        Err(self.refuse())
    }

    fn append(&mut self, bytes: &[u8]) -> Result<(), DiskFault>
        ensures has_spare { IsSome (view_of self.old).spare → IsSome (view_of self.new).spare }
        ensures grown { OnOk result ((view_of self.new).spare
            ≡ option_map (λ text. text ++ bytes.now) (view_of self.old).spare) }
        ensures main { KeepsMain (view_of self.old) (view_of self.new) }
        ensures fault { Counts (failures_of self.old) (failures_of self.new) result }
        ensures stops { StopsFrom self.old self.new result }
        ensures images { images self.new ≡ images self.old }
        ensures within { StopsWithin self.old self.new → (view_of self.new).spare
            ≡ option_map (λ text. text ++ take (length bytes.now / 2) bytes.now) (view_of self.old).spare }
        ensures either { IsWithin self.old
            → ((view_of self.new).spare
            ≡ option_map (λ text. text ++ take (length bytes.now / 2) bytes.now) (view_of self.old).spare)
            ⊎ ((view_of self.new).spare ≡ (view_of self.old).spare) }
    {
        match self.count() {
            Call::Passes => self.disk.append(bytes),
            Call::CutShort => {
                self.disk.append(first_half(bytes))?;
                Err(self.refuse())
            }
            Call::Refused => Err(self.refuse()),
        }
    }

    fn sync_spare(&mut self) -> Result<(), DiskFault>
        ensures has_spare { IsSome (view_of self.old).spare → IsSome (view_of self.new).spare }
        ensures stable { OnOk result ((view_of self.new).stable ≡ true) }
        ensures spare { (view_of self.new).spare ≡ (view_of self.old).spare }
        ensures main { KeepsMain (view_of self.old) (view_of self.new) }
        ensures fault { Counts (failures_of self.old) (failures_of self.new) result }
        ensures stops { StopsFrom self.old self.new result }
        ensures done { 1 < left_of self.old → IsOk result ↔ IsSome (view_of self.old).spare }
        ensures images { images self.new ≡ images self.old }
        ensures nothing { left_of self.old ≤ 1 → inner_of self.new ≡ inner_of self.old }
    {
        if let Call::Passes = self.count() {
            return self.disk.sync_spare();
        }
        Err(self.refuse())
    }

    fn rename(&mut self) -> Result<(), DiskFault>
        ensures renamed { OnOk result ((view_of self.old).spare
            ≡ Some (view_of self.new).main_text) }
        ensures no_spare { OnOk result ((view_of self.new).spare ≡ None) }
        ensures err { OnErr result ((view_of self.new).main_text ≡ (view_of self.old).main_text) }
        ensures crash { Gains (IsBroughtBy (view_of self.old)) (view_of self.old)
            (view_of self.new) }
        ensures fault { Counts (failures_of self.old) (failures_of self.new) result }
        ensures stops { StopsFrom self.old self.new result }
        ensures brought { OnOk result (Brings (view_of self.old).stable (view_of self.new).main_text
            (images self.old) (images self.new)) }
        ensures err_images { 1 < left_of self.old → OnErr result (images self.new ≡ images self.old) }
        ensures within { StopsWithin self.old self.new
            → BringsSpare (view_of self.old) (images self.old) (images self.new) }
        ensures either { IsWithin self.old
            → BringsSpare (view_of self.old) (images self.old) (images self.new)
            ⊎ (images self.new ≡ images self.old) }
    {
        match self.count() {
            Call::Passes => self.disk.rename(),
            Call::CutShort => {
                self.disk.stop_in_rename()?;
                Err(self.refuse())
            }
            Call::Refused => Err(self.refuse()),
        }
    }

    fn sync_names(&mut self) -> Result<(), DiskFault>
        ensures durable { OnOk result (LeavesOnly (view_of self.old).main_text (view_of self.new)) }
        ensures spare { KeepsSpare (view_of self.old) (view_of self.new) }
        ensures main { KeepsMain (view_of self.old) (view_of self.new) }
        ensures fault { Counts (failures_of self.old) (failures_of self.new) result }
        ensures stops { StopsFrom self.old self.new result }
        ensures alone { OnOk result (images self.new ≡ (view_of self.old).main_text ∷ []) }
        ensures err_images { OnErr result (images self.new ≡ images self.old) }
        ensures nothing { left_of self.old ≤ 1 → inner_of self.new ≡ inner_of self.old }
    {
        if let Call::Passes = self.count() {
            return self.disk.sync_names();
        }
        Err(self.refuse())
    }

    fn read_main(&mut self, at: u64, buffer: &mut [u8]) -> Result<usize, DiskFault>
        ensures read { IfOk result (Reads (view_of self.old).main_text at buffer.new) }
        ensures spare { KeepsSpare (view_of self.old) (view_of self.new) }
        ensures main { KeepsMain (view_of self.old) (view_of self.new) }
        ensures fault { Counts (failures_of self.old) (failures_of self.new) result }
        ensures stops { StopsFrom self.old self.new result }
        ensures done { 1 < left_of self.old → IsOk result }
        ensures images { images self.new ≡ images self.old }
        ensures nothing { left_of self.old ≤ 1 → inner_of self.new ≡ inner_of self.old }
    {
        if let Call::Passes = self.count() {
            return self.disk.read_main(at, buffer);
        }
        Err(self.refuse())
    }

    ghost main_may_be_left = { λ d _. main_is_left d.disk.set.base d.disk.set.later.items
        d.disk.set.first d.disk.main d.disk.main_in };

    ghost counts_now = { λ d t c _ _ now. more_from d.disk.set.base.items d.disk.set.later.items
        (first_at d.disk.set.starts.items d.disk.set.first t) d.disk.set.first c
        (d.disk.set.rising t) now };

    ghost only_now = { λ d c _ left. now_since_now d.disk.set.base.items d.disk.set.later.items
        d.disk.set.starts.items d.disk.set.first c left };
}
