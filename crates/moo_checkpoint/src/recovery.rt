//! Reads the main text of a disk, one buffer at a time.
ghost use Rattle.std.specs.Prelude.{◌≡◌, ◌≢◌, ◌⊎◌, ◌↔◌, ◌+◌, ◌<◌, ◌≤◌, ◌^◌, [], length, take, IfOk, IfErr, IfSome, OnOk, MatchResult};
ghost use Rattle.moo_dbtext_record.specs.declared.fault.DbFault.{DbFault};
ghost use Rattle.moo_dbtext_record.specs.declared.fault.DbFaultKind.TheVariants as kind;
ghost use Rattle.moo_disk.specs.Disk.{KeepsMain, KeepsSpare, OnlyReads, ReadMain, Reads, ReadsBelow};
ghost use Rattle.moo_dbtext_read.specs.Saved as saving;
ghost use Rattle.moo_dbtext_read.specs.Saved.{saved_of, SpellsSaved, SpellsSavedWithin};
ghost use Rattle.moo_dbtext_read.specs.Feeding.{HasFed};
ghost use Rattle.moo_dbtext_read.specs.Refusals.{Refuses};
ghost use Rattle.moo_checkpoint.specs.Recovering.{CountsDevice, Keeps, Recovers, Tells, front_to};

use crate::open_fault::OpenFault;
use moo_dbtext_read::{DbReader, Saved};
use moo_disk::Disk;
use std::alloc::Global;

/// The number of bytes to read in one call of the disk.
const BUFFER: usize = 65_536;

/// A bound on the bytes of a main text, which has fewer.
const END: u64 = 1 << 63;

/// Reads the bytes of main from offset `at` into the front of the buffer. Returns how many, which is 0 only at the
/// end. Returns `Device` if the disk fails or claims more bytes than the buffer holds.
fn read_at<D: Disk>(disk: &mut D, at: u64, buffer: &mut [u8]) -> Result<usize, OpenFault>
    ensures within { IfOk result (λ count. count ≤ length buffer.new) }
    ensures read { D.kind.honest disk.old → IfOk result (Reads (D.kind.view disk.old).main_text at buffer.new) }
    ensures told { IfErr result (λ e. e ≡ OpenFault.Device) }
    ensures device { CountsDevice (D.kind.honest disk.old) (D.kind.failures disk.old) (D.kind.failures disk.new) result }
    ensures made { D.kind.made (ReadMain at (length buffer.old)) disk.old disk.new }
    ensures keeps { Keeps D.kind disk.old disk.new }
{
    let count = disk.read_main(at, buffer)?;
    if count > buffer.len() {
        return Err(OpenFault::Device);
    }
    Ok(count)
}

/// Returns the offset `count` bytes after `at`, or `Device` if no main text is that long.
fn place_after(at: u64, count: usize) -> Result<u64, OpenFault>
    ensures place { IfOk result (λ after. (after ≡ at + count) × (after < 2 ^ 63)) }
    ensures past { IfErr result (λ e. (e ≡ OpenFault.Device) × (2 ^ 63 ≤ at + count)) }
{
    match at.checked_add(count as u64) {
        Some(after) if after < END => Ok(after),
        _ => Err(OpenFault::Device),
    }
}

/// Reads once from main at offset `at`, and feeds the reader those bytes. Returns the offset after them, or `None` at
/// the end.
fn feed_at<D: Disk>(
    alloc: Global,
    disk: &mut D,
    at: u64,
    buffer: &mut [u8],
    reader: &mut DbReader,
) -> Result<Option<u64>, OpenFault>
    requires { 0 < length buffer.old }
    ensures place { IfOk result (λ next. IfSome next (λ after. (at < after) × (after < 2 ^ 63))) }
    ensures within { D.kind.honest disk.old → IfOk result (λ next. IfSome next (λ after. after ≤ length (D.kind.view disk.old).main_text)) }
    ensures fed { D.kind.honest disk.old → HasFed reader.old (take at (D.kind.view disk.old).main_text)
        → IfOk result (λ next. HasFed reader.new (front_to (D.kind.view disk.old).main_text next)) }
    ensures told { D.kind.honest disk.old → HasFed reader.old (take at (D.kind.view disk.old).main_text)
        → IfErr result (Tells (D.kind.view disk.old).main_text) }
    ensures device { CountsDevice (D.kind.honest disk.old) (D.kind.failures disk.old) (D.kind.failures disk.new) result }
    ensures made { D.kind.made (ReadMain at (length buffer.old)) disk.old disk.new }
    ensures keeps { Keeps D.kind disk.old disk.new }
{
    let count = read_at(disk, at, buffer)?;
    if count == 0 {
        return Ok(None);
    }
    let after = place_after(at, count)?;
    reader.feed(alloc, &buffer[..count])?;
    Ok(Some(after))
}

/// Feeds the reader the main text.
fn feed_main<D: Disk>(alloc: Global, disk: &mut D, reader: &mut DbReader) -> Result<(), OpenFault>
    ensures fed { D.kind.honest disk.old → HasFed reader.old [] → OnOk result (HasFed reader.new (D.kind.view disk.old).main_text) }
    ensures told { D.kind.honest disk.old → HasFed reader.old [] → IfErr result (Tells (D.kind.view disk.old).main_text) }
    ensures device { CountsDevice (D.kind.honest disk.old) (D.kind.failures disk.old) (D.kind.failures disk.new) result }
    ensures reads { OnlyReads D.kind 65536 disk.old disk.new }
    ensures few { D.kind.honest disk.old → ReadsBelow D.kind 65536 (length (D.kind.view disk.old).main_text + 1) disk.old disk.new }
    ensures keeps { Keeps D.kind disk.old disk.new }
{
    let mut buffer = vec![in alloc; 0u8; BUFFER]?;
    let mut at: u64 = 0;
    while let Some(after) = feed_at(alloc, disk, at, &mut buffer, reader)? {
        at = after;
    }
    Ok(())
}

fn recover_all<D: Disk>(alloc: Global, disk: &mut D) -> Result<Saved, OpenFault>
    ensures answer { D.kind.honest disk.old → Recovers (D.kind.view disk.old).main_text result }
    ensures device { CountsDevice (D.kind.honest disk.old) (D.kind.failures disk.old) (D.kind.failures disk.new) result }
    ensures reads { OnlyReads D.kind 65536 disk.old disk.new }
    ensures few { D.kind.honest disk.old → ReadsBelow D.kind 65536 (length (D.kind.view disk.old).main_text + 1) disk.old disk.new }
    ensures keeps { Keeps D.kind disk.old disk.new }
{
    let mut reader = DbReader::new(alloc);
    feed_main(alloc, disk, &mut reader)?;
    Ok(reader.finish(alloc)?)
}

/// Reads the saved world that a disk's main text spells, one buffer at a time. Writes nothing.
pub fn recover<D: Disk>(alloc: Global, disk: &mut D) -> Result<Saved, OpenFault>
    // The main text spells the saved world that is returned,
    ensures found { D.kind.honest disk.old → IfOk result (λ s. SpellsSaved (D.kind.view disk.old).main_text (saved_of s)) }
    // and does so within the size limits.
    ensures sizes { D.kind.honest disk.old → IfOk result (λ s. SpellsSavedWithin (D.kind.view disk.old).main_text (saved_of s)) }
    // If the main text spells a world within the limits, it is returned, unless the device fails or memory runs out.
    ensures within { D.kind.honest disk.old → (s : saving.Saved) → SpellsSavedWithin (D.kind.view disk.old).main_text s
        → MatchResult result (λ r. saved_of r ≡ s) (λ e. (e ≡ OpenFault.Device) ⊎ (e ≡ OpenFault.Memory)) }
    // If the text is refused, the reported fault says why. Running out of memory is reported as `OpenFault::Memory`.
    ensures refused { D.kind.honest disk.old → IfErr result (λ e. (f : DbFault) → e ≡ OpenFault.Db f
        → Refuses (D.kind.view disk.old).main_text f × (f.kind ≢ kind.Memory)) }
    // The answer is that of the reader for these bytes.
    ensures exact { D.kind.honest disk.old → Recovers (D.kind.view disk.old).main_text result }
    // If `Device` is returned for an honest disk, its device failed in this call. If anything else is, the device did
    // not fail.
    ensures device { CountsDevice (D.kind.honest disk.old) (D.kind.failures disk.old) (D.kind.failures disk.new) result }
    // Nothing is written, and no call is made but `read_main`, for 65,536 bytes each time, at places that rise.
    ensures reads { OnlyReads D.kind 65536 disk.old disk.new }
    // On an honest disk each place is one of main's bytes or its end, so there is at most one read more than bytes.
    ensures few { D.kind.honest disk.old → ReadsBelow D.kind 65536 (length (D.kind.view disk.old).main_text + 1) disk.old disk.new }
    ensures main { D.kind.honest disk.old → KeepsMain (D.kind.view disk.old) (D.kind.view disk.new) }
    ensures spare { D.kind.honest disk.old → KeepsSpare (D.kind.view disk.old) (D.kind.view disk.new) }
    ensures has_spare { D.kind.has_spare disk.old → D.kind.has_spare disk.new }
    ensures honest { D.kind.honest disk.old ↔ D.kind.honest disk.new }
{
    recover_all(alloc, disk)
}
