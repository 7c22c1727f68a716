//! Writers of the objects of a world.

ghost use Rattle.std.specs.Prelude.{◌≡◌, ◌++◌, ◌∷◌, [], length, map, option_map, OnOk};
ghost use Rattle.std.specs.List.{flat_map, range_with_len};
ghost use Rattle.std.specs.Fmt.{signed_decimal};
ghost use Rattle.moo_world_object.specs.Flags.{flags_number};
ghost use Rattle.moo_world_object.specs.Objects.{Object as Contents};
ghost use Rattle.moo_dbtext_object.specs.Lines.{unlines, count_line};
ghost use Rattle.moo_dbtext_object.specs.Objects.{verb_lines, cell_lines, object_lines};
ghost use Rattle.moo_dbtext_record.specs.Texts.{objects_lines};
ghost use Rattle.moo_dbtext_record.specs.Writing.{no_notes};
ghost use Rattle.moo_dbtext_restore.specs.Says.{recorded_verb, recorded_cell};
ghost use Rattle.moo_dbtext_restore.specs.Recorded.{body_with, recorded_at};

use crate::link::link_in;
use crate::nexts::nexts;
use moo_dbtext_object::{put_count, put_line, put_names, put_number, put_numbers, put_value};
use moo_dbtext_record::{put_live, put_recycled};
use moo_dbtext_restore::Link;
use moo_world::{Object, PropCell, Verb, World};
use std::alloc::{AllocError, Global};

fn verb_bits(verb: &Verb) -> usize
    ensures { result ≡ (recorded_verb verb.now).perms }
{
    let perms = verb.perms.number() as usize;
    let direct = verb.args.direct.number() as usize;
    let indirect = verb.args.indirect.number() as usize;
    perms + 16 * direct + 64 * indirect
}

fn put_verb(out: &mut Vec<u8>, verb: &Verb) -> Result<(), AllocError>
    ensures { OnOk result (out.new.items ≡ out.old.items ++ unlines (verb_lines (recorded_verb verb.now))) }
{
    put_line(out, verb.names.as_bytes())?;
    put_number(out, verb.owner)?;
    put_count(out, verb_bits(verb))?;
    put_number(out, verb.args.preposition.number())?;
    Ok(())
}

fn put_verbs(out: &mut Vec<u8>, verbs: &[Verb]) -> Result<(), AllocError>
    ensures { OnOk result (out.new.items ≡ out.old.items ++ unlines (flat_map verb_lines (map recorded_verb verbs.now))) }
{
    for verb in verbs {
        put_verb(out, verb)?;
    }
    Ok(())
}

fn put_cell(out: &mut Vec<u8>, cell: &PropCell) -> Result<(), AllocError>
    ensures { OnOk result (out.new.items ≡ out.old.items ++ unlines (cell_lines (recorded_cell cell.now))) }
{
    match cell.value() {
        None => put_line(out, b"5")?,
        Some(value) => put_value(out, value)?,
    }
    put_number(out, cell.owner())?;
    put_count(out, cell.perms().number() as usize)?;
    Ok(())
}

fn put_cells(out: &mut Vec<u8>, cells: &[PropCell]) -> Result<(), AllocError>
    ensures { OnOk result (out.new.items ≡ out.old.items ++ unlines (flat_map cell_lines (map recorded_cell cells.now))) }
{
    for cell in cells {
        put_cell(out, cell)?;
    }
    Ok(())
}

fn put_front(out: &mut Vec<u8>, object: &Object) -> Result<(), AllocError>
    ensures { OnOk result (out.new.items ≡ out.old.items ++ unlines (object.now.name ∷ [] ∷ count_line (flags_number object.now.flags) ∷ [])) }
{
    put_line(out, object.name().as_bytes())?;
    put_line(out, b"")?;
    put_count(out, object.flags().number() as usize)?;
    Ok(())
}

fn put_links(out: &mut Vec<u8>, owner: i32, parent: Link, place: Link) -> Result<(), AllocError>
    ensures { OnOk result (out.new.items ≡ out.old.items ++ unlines (signed_decimal owner ∷ signed_decimal place.above ∷ signed_decimal place.first ∷ signed_decimal place.next ∷ signed_decimal parent.above ∷ signed_decimal parent.first ∷ signed_decimal parent.next ∷ [])) }
{
    let links = [
        owner,
        place.above,
        place.first,
        place.next,
        parent.above,
        parent.first,
        parent.next,
    ];
    put_numbers(out, &links)
}

// Appends the lines of an object after its header. The string that is not kept is written as empty.
fn put_object(
    out: &mut Vec<u8>,
    object: &Object,
    parent: Link,
    place: Link,
) -> Result<(), AllocError>
    ensures { OnOk result (out.new.items ≡ out.old.items ++ unlines (object_lines (record { name = object.now.name; body = body_with object.now parent place }) [])) }
{
    put_front(out, object)?;
    put_links(out, object.owner(), parent, place)?;
    put_count(out, object.verbs().len())?;
    put_verbs(out, object.verbs())?;
    put_count(out, object.defined().len())?;
    put_names(out, object.defined())?;
    put_count(out, object.cells().len())?;
    put_cells(out, object.cells())?;
    Ok(())
}

fn put_entry(
    out: &mut Vec<u8>,
    number: usize,
    entry: &Option<Object>,
    parent: Link,
    place: Link,
) -> Result<(), AllocError>
    ensures { OnOk result (out.new.items ≡ out.old.items ++ unlines (objects_lines number (option_map (λ (o : Contents). record { name = o.name; body = body_with o parent place }) entry.now ∷ []) no_notes)) }
{
    match entry {
        None => put_recycled(out, number),
        Some(object) => {
            put_live(out, number)?;
            put_object(out, object, parent, place)
        }
    }
}

/// Appends the lines of the objects.
pub(crate) fn put_entries(alloc: Global, out: &mut Vec<u8>, world: &World) -> Result<(), AllocError>
    ensures { OnOk result (out.new.items ≡ out.old.items ++ unlines (objects_lines 0 (map (recorded_at world.now) (range_with_len 0 (length world.now.objects))) no_notes)) }
{
    world.is_well_formed();
    let objects = world.objects();
    let parents = world.inheritance();
    let places = world.containment();
    let siblings = nexts(alloc, parents)?;
    let neighbours = nexts(alloc, places)?;
    for x in 0..objects.len() {
        let parent = link_in(parents, &siblings, x);
        let place = link_in(places, &neighbours, x);
        put_entry(out, x, &objects[x], parent, place)?;
    }
    Ok(())
}
