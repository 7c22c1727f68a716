//! The writer of a whole world.

ghost use Rattle.std.specs.Prelude.{◌≡◌, ◌++◌, ◌∷◌, [], pos, length, map, FitsSigned, IfOk, OnOk};
ghost use Rattle.std.specs.List.{All};
ghost use Rattle.std.specs.Int.{w32};
ghost use Rattle.std.specs.Fmt.{signed_decimal};
ghost use Rattle.moo_world_table.specs.World.{programs_in};
ghost use Rattle.moo_dbtext_object.specs.Lines.{Sizes, IsCountOf, unlines, count_line};
ghost use Rattle.moo_dbtext_record.specs.Texts.{link_of, header_line, tasks_lines, connections_lines};
ghost use Rattle.moo_dbtext_record.specs.Writing.{canonical_lines, IsWritable};
ghost use Rattle.moo_dbtext_record.specs.declared.dump.Form.TheVariants.{WithListeners};
ghost use Rattle.moo_dbtext.specs.Held.{IsHeld};
ghost use Rattle.moo_dbtext.specs.Texts.{link_to, text_of_world, canonical_bytes};

use crate::object::put_entries;
use crate::program::put_programs;
use moo_dbtext_object::{put_count, put_number};
use moo_dbtext_record::{Connection, Form, put_connections, put_header, put_players, put_tasks};
use moo_world::World;
use moo_world_table::verbs::all_programs;
use std::alloc::{AllocError, Global};

/// The version of the format that is written.
const VERSION: u32 = 4;

// Appends the lines before the number of players.
fn put_heading(out: &mut Vec<u8>, world: &World) -> Result<(), AllocError>
    ensures { OnOk result (out.new.items ≡ out.old.items ++ unlines (header_line 4 ∷ count_line (length world.now.objects) ∷ count_line (programs_in world.now.objects) ∷ signed_decimal (pos 0) ∷ [])) }
{
    world.is_well_formed();
    put_header(out, VERSION)?;
    put_count(out, world.objects().len())?;
    put_count(out, all_programs(world.objects()))?;
    put_number(out, 0)?;
    Ok(())
}

fn connections(alloc: Global, connected: &[i32]) -> Result<Vec<Connection>, AllocError>
    ensures links { IfOk result (λ links. map link_of links.items ≡ map link_to connected.now) }
    ensures held { IfOk result (λ _. All (FitsSigned w32) connected.now) }
{
    let mut links = Vec::new(alloc);
    for who in connected {
        links.push(Connection {
            who: *who,
            listener: Some(0),
        })?;
    }
    Ok(links)
}

// Appends the lines after the programs.
fn put_back(alloc: Global, out: &mut Vec<u8>, connected: &[i32]) -> Result<(), AllocError>
    ensures lines { OnOk result (out.new.items ≡ out.old.items ++ unlines (tasks_lines (connections_lines WithListeners (map link_to connected.now)))) }
    ensures held { OnOk result (All (FitsSigned w32) connected.now) }
{
    let links = connections(alloc, connected)?;
    put_tasks(out)?;
    put_connections(out, Form::WithListeners, &links)?;
    Ok(())
}

fn put_world(
    alloc: Global,
    out: &mut Vec<u8>,
    world: &World,
    connected: &[i32],
) -> Result<(), AllocError>
    ensures lines { OnOk result (out.new.items ≡ out.old.items ++ unlines (canonical_lines (text_of_world world.now connected.now))) }
    ensures held { OnOk result (IsHeld world.now connected.now) }
{
    put_heading(out, world)?;
    put_players(out, world.players())?;
    put_entries(alloc, out, world)?;
    put_programs(alloc, out, world.objects())?;
    put_back(alloc, out, connected)?;
    Ok(())
}

/// Returns the text of a world, with the numbers of the connected players. Holds one listing at a time. Fails only if
/// memory runs out.
pub fn write_world(alloc: Global, world: &World, connected: &[i32]) -> Result<Vec<u8>, AllocError>
    // The bytes are those of the world.
    ensures bytes { IfOk result (λ bytes. bytes.items ≡ canonical_bytes world.now connected.now) }
    // The text can be read back. It is within the size limits if the number of connected players is.
    ensures writable { IfOk result (λ _. (s : Sizes) → IsCountOf s (length connected.now) → IsWritable s (text_of_world world.now connected.now)) }
    // Each program is one of some text, within its limits, and the lines of its listing are strings.
    ensures held { IfOk result (λ _. IsHeld world.now connected.now) }
{
    world.is_well_formed();
    let mut out = Vec::new(alloc);
    put_world(alloc, &mut out, world, connected)?;
    Ok(out)
}
