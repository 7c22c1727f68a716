//! The world that the contents of a text describe.
ghost use Rattle.std.specs.Prelude.{◌≡◌, ◌⊎◌, map, option_map, IfOk, IfErr};
ghost use Rattle.moo_dbtext_object.specs.Objects.{object_of};
ghost use Rattle.moo_dbtext_record.specs.Texts.{link_of};
ghost use Rattle.moo_world_table.specs.World.{IsWellFormed};
ghost use Rattle.moo_dbtext_restore.specs.Says.{Says};
ghost use Rattle.moo_dbtext_restore.specs.Restoring.{records_from, AreWithinLimits};
ghost use Rattle.moo_dbtext_read.specs.Loading.{records_kept, who_of, IsLineOf, IsTold, IsSavedFrom};
ghost use Rattle.moo_dbtext_read.specs.Objects.{AreFaultless};

use crate::object_line::line_of_object;
use crate::{Database, Saved};
use moo_dbtext_object::ObjectRecord;
use moo_dbtext_record::{Connection, DbFault, DbFaultKind};
use moo_dbtext_restore::{RestoreFault, restore_checked};
use moo_syntax_program::Program;
use moo_world::World;
use std::alloc::{AllocError, Global};
use std::mem::forget;

/// Returns the numbers of the connected players.
fn connected(alloc: Global, connections: &[Connection]) -> Result<Vec<i32>, AllocError>
    ensures { IfOk result (λ who. who.items ≡ map who_of (map link_of connections.now)) }
{
    let mut who = Vec::new(alloc);
    for connection in connections {
        who.push(connection.who)?;
    }
    Ok(who)
}

/// Returns the fault of running out of memory after `lines` lines.
fn without_memory(lines: u64) -> DbFault
    ensures { result.kind ≡ DbFaultKind.Memory }
{
    DbFault {
        line: lines,
        kind: DbFaultKind::Memory,
    }
}

/// Returns the fault of object `x`, on the line that names it, in a text with these lines, players and objects.
fn told_object(
    lines: u64,
    players: usize,
    objects: &[Option<ObjectRecord>],
    x: usize,
    kind: DbFaultKind,
) -> DbFault
    ensures { (result.kind ≡ DbFaultKind.Memory) ⊎ ((result.kind ≡ kind) × IsLineOf players (map (option_map object_of) objects.now) x result.line) }
{
    match line_of_object(players, objects, x) {
        Some(line) => DbFault { line, kind },
        None => without_memory(lines),
    }
}

/// Returns the fault to report if no world was restored.
pub(crate) fn told(
    lines: u64,
    players: usize,
    objects: &[Option<ObjectRecord>],
    fault: RestoreFault,
) -> DbFault
    ensures { (result.kind ≡ DbFaultKind.Memory) ⊎ IsTold players (map (option_map object_of) objects.now) fault result }
{
    match fault {
        RestoreFault::Hierarchy(x) => match u32::try_from(x) {
            Ok(number) => {
                let kind = DbFaultKind::BadHierarchy(number);
                told_object(lines, players, objects, x, kind)
            }
            Err(_) => without_memory(lines),
        },
        RestoreFault::PropertyCount(x) => match u32::try_from(x) {
            Ok(number) => {
                let kind = DbFaultKind::PropertyCount(number);
                told_object(lines, players, objects, x, kind)
            }
            Err(_) => without_memory(lines),
        },
        RestoreFault::Memory => without_memory(lines),
    }
}

/// Returns the world of records in which no object is at fault. Fails only if memory runs out.
fn world_of(
    alloc: Global,
    lines: u64,
    objects: &[Option<ObjectRecord>],
    programs: &[Vec<Option<Program>>],
    players: Vec<i32>,
) -> Result<World, DbFault>
    requires limits { AreWithinLimits (records_from objects.now programs.now players.items) }
    requires faultless { AreFaultless (map (option_map object_of) objects.now) }
    ensures world { IfOk result (Says (records_from objects.now programs.now players.items)) }
    ensures sound { IfOk result IsWellFormed }
    ensures fault { IfErr result (λ e. e.kind ≡ DbFaultKind.Memory) }
{
    match restore_checked(alloc, objects, programs, players) {
        Ok(world) => {
            world.is_well_formed();
            Ok(world)
        }
        Err(_) => Err(without_memory(lines)),
    }
}

/// Returns the saved world of a text of `lines` lines, in which no object is at fault. Frees the memory of the
/// records, or leaks it if `is_left`. Fails only if memory runs out.
pub(crate) fn load(
    alloc: Global,
    lines: u64,
    database: Database,
    is_left: bool,
) -> Result<Saved, DbFault>
    requires limits { AreWithinLimits (records_kept database) }
    requires faultless { AreFaultless (records_kept database).objects }
    ensures saved { IfOk result (IsSavedFrom database) }
    ensures fault { IfErr result (λ e. e.kind ≡ DbFaultKind.Memory) }
{
    let Database {
        players,
        objects,
        programs,
        connections,
    } = database;
    let Ok(connected) = connected(alloc, &connections) else {
        return Err(without_memory(lines));
    };
    let world = world_of(alloc, lines, &objects, &programs, players)?;
    if is_left {
        forget(objects);
        forget(programs);
    }
    Ok(Saved { world, connected })
}
