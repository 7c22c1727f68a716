//! Lives one after another.
ghost use Rattle.std.specs.Prelude.{◌≡◌, ◌↔◌, IfOk, IfErr};
ghost use Rattle.moo_disk.specs.Disk.{LeavesOnly};
ghost use Rattle.moo_dbtext_read.specs.Saved.{Saved};
ghost use Rattle.moo_server_core.specs.Lives.{EndsAt, EndsBefore, HasLived, HasNoImage, IsMet, IsStopped, SoFar};

use crate::begin::open;
use crate::life::done_in;
use crate::{Life, LifeBegin, LifeStop, LivesCause, LivesFault, StartApplication};
use moo_disk::{CrashDisk, Disk};
use std::alloc::Global;

/// Runs one life up to its end.
fn live<S: StartApplication, D: Disk>(
    alloc: Global,
    disk: &mut D,
    life: &Life,
) -> Result<LifeBegin, LivesCause>
    ensures lived { IfOk result (λ begin. HasLived S.layer D.kind life.now disk.old disk.new begin) }
    ensures met { IfErr result (λ cause. IsMet S.layer D.kind disk.old disk.new cause) }
    ensures honest { D.kind.honest disk.old ↔ D.kind.honest disk.new }
{
    match open::<S, D>(alloc, disk, life.moment) {
        Ok((mut server, text)) => {
            let done = done_in(server.run(disk, &life.events));
            Ok(LifeBegin { text, done })
        }
        Err(fault) => Err(LivesCause::Open(fault)),
    }
}

/// Runs one life with its end. Returns the disk that is left, and what is returned of the life.
fn live_and_stop<S: StartApplication, D: CrashDisk + Drop>(
    alloc: Global,
    disk: D,
    life: &Life,
) -> Result<(D, LifeBegin), (D, LivesCause)>
    ensures lived { IfOk result (λ given. (end : D) × HasLived S.layer D.kind life.now disk end given.1
        × IsStopped D.kind D.images life.now.stop end given.0) }
    ensures met { IfErr result (λ given. EndsBefore S.layer D.kind D.images life.now disk given.0 given.1) }
{
    let mut disk = disk;
    match live::<S, D>(alloc, &mut disk, life) {
        Ok(begin) => stop(disk, life.stop, begin),
        Err(cause) => Err((disk, cause)),
    }
}

fn stop<D: CrashDisk + Drop>(
    disk: D,
    stop: LifeStop,
    begin: LifeBegin,
) -> Result<(D, LifeBegin), (D, LivesCause)>
    ensures stopped { IfOk result (λ given. (given.1 ≡ begin) × IsStopped D.kind D.images stop disk given.0) }
    ensures met { IfErr result (λ given. (given.1 ≡ LivesCause.NoSuchImage) × HasNoImage D.images stop disk × (given.0 ≡ disk)) }
{
    match stop {
        LifeStop::ServerOnly => Ok((disk, begin)),
        LifeStop::Crash(i) => match disk.crash(i) {
            Ok(left) => Ok((left, begin)),
            Err(same) => Err((same, LivesCause::NoSuchImage)),
        },
    }
}

/// Runs lives one after another, each over the disk that the one before it left. Returns the disk that is left too, also
/// with a fault.
///
/// If a life can't begin or end, the fault names it, and nothing is returned of those before it.
pub fn run_lives_on<S: StartApplication, D: CrashDisk + Drop>(
    alloc: Global,
    disk: D,
    lives: &[Life],
) -> Result<(D, Vec<LifeBegin>), (D, LivesFault)>
    // Suppose that the disk is honest, that a crash leaves only its main text, and that this spells a saved world within
    // the limits. Then these lives were lived, this is returned of them, and they left the disk that is returned.
    ensures lives { D.kind.honest disk → (s : Saved) → S.layer.meaning.Spells (D.kind.view disk).main_text s → LeavesOnly (D.kind.view disk).main_text (D.kind.view disk)
        → IfOk result (λ given. SoFar S.layer D.kind D.images lives.now given.1.items disk given.0) }
    // At a fault the lives before that of its place were lived, and that one met what the fault says and left the disk
    // that is returned.
    ensures fault { D.kind.honest disk → (s : Saved) → S.layer.meaning.Spells (D.kind.view disk).main_text s → LeavesOnly (D.kind.view disk).main_text (D.kind.view disk)
        → IfErr result (λ given. EndsAt S.layer D.kind D.images lives.now disk given.0 given.1) }
{
    let mut disk = disk;
    let mut begins = Vec::new(alloc);
    for (place, life) in lives.iter().enumerate() {
        match live_and_stop::<S, D>(alloc, disk, life) {
            Ok((left, begin)) => {
                disk = left;
                if begins.push(begin).is_err() {
                    let cause = LivesCause::Memory;
                    return Err((disk, LivesFault { life: place, cause }));
                }
            }
            Err((left, cause)) => return Err((left, LivesFault { life: place, cause })),
        }
    }
    Ok((disk, begins))
}

/// Runs lives as `run_lives_on` does, and drops the disk that is left.
pub fn run_lives<S: StartApplication, D: CrashDisk + Drop>(
    alloc: Global,
    disk: D,
    lives: &[Life],
) -> Result<Vec<LifeBegin>, LivesFault>
    // Suppose that the disk is honest, that a crash leaves only its main text, and that this spells a saved world within
    // the limits. Then these lives were lived, and this is returned of them.
    ensures lives { D.kind.honest disk → (s : Saved) → S.layer.meaning.Spells (D.kind.view disk).main_text s → LeavesOnly (D.kind.view disk).main_text (D.kind.view disk)
        → IfOk result (λ begins. (left : D) × SoFar S.layer D.kind D.images lives.now begins.items disk left) }
    // At a fault the lives before that of its place were lived, and that one met what the fault says.
    ensures fault { D.kind.honest disk → (s : Saved) → S.layer.meaning.Spells (D.kind.view disk).main_text s → LeavesOnly (D.kind.view disk).main_text (D.kind.view disk)
        → IfErr result (λ fault. (left : D) × EndsAt S.layer D.kind D.images lives.now disk left fault) }
{
    match run_lives_on::<S, D>(alloc, disk, lives) {
        Ok((left, begins)) => {
            drop(left);
            Ok(begins)
        }
        Err((left, fault)) => {
            drop(left);
            Err(fault)
        }
    }
}
