//! Writers of the lines of whole texts, part by part.
ghost use Rattle.std.specs.Prelude.{◌≡◌, ◌++◌, ◌∷◌, [], map, length, OnOk};
ghost use Rattle.std.specs.Fmt.{signed_decimal};
ghost use Rattle.std.specs.List.{All};
ghost use Rattle.moo_value.specs.Size.{IsString};
ghost use Rattle.moo_dbtext_object.specs.Lines.{unlines, count_line};
ghost use Rattle.moo_dbtext_record.specs.Programs.{program_line, program_lines};
ghost use Rattle.moo_dbtext_record.specs.Texts.{header_line, live_line, recycled_line, link_of, link_line, connections_lines, tasks_lines};

use crate::dump::{Connection, Form};
use itoa::Buffer;
use moo_dbtext_object::{put_count, put_line, put_number, put_numbers};
use moo_value::MooStr;
use std::alloc::AllocError;

fn put_between(
    out: &mut Vec<u8>,
    front: &[u8],
    number: usize,
    back: &[u8],
) -> Result<(), AllocError>
    ensures { OnOk result (out.new.items ≡ out.old.items ++ unlines ((front.now ++ (count_line number ++ back.now)) ∷ [])) }
{
    let mut buffer = Buffer::new();
    out.extend_from_slice(front)?;
    out.extend_from_slice(buffer.format(number).as_bytes())?;
    put_line(out, back)
}

/// Appends the header with the version of the format.
pub fn put_header(out: &mut Vec<u8>, version: u32) -> Result<(), AllocError>
    ensures { OnOk result (out.new.items ≡ out.old.items ++ unlines (header_line version ∷ [])) }
{
    put_between(
        out,
        b"** LambdaMOO Database, Format Version ",
        version as usize,
        b" **",
    )
}

/// Appends the number of players, and the players.
pub fn put_players(out: &mut Vec<u8>, players: &[i32]) -> Result<(), AllocError>
    ensures { OnOk result (out.new.items ≡ out.old.items ++ unlines (count_line (length players.now) ∷ map signed_decimal players.now)) }
{
    put_count(out, players.len())?;
    put_numbers(out, players)
}

/// Appends the header of an object that exists.
pub fn put_live(out: &mut Vec<u8>, number: usize) -> Result<(), AllocError>
    ensures { OnOk result (out.new.items ≡ out.old.items ++ unlines (live_line number ∷ [])) }
{
    let mut buffer = Buffer::new();
    out.push(b'#')?;
    put_line(out, buffer.format(number).as_bytes())
}

/// Appends the header of a recycled object.
pub fn put_recycled(out: &mut Vec<u8>, number: usize) -> Result<(), AllocError>
    ensures { OnOk result (out.new.items ≡ out.old.items ++ unlines (recycled_line number ∷ [])) }
{
    let mut buffer = Buffer::new();
    out.push(b'#')?;
    out.extend_from_slice(buffer.format(number).as_bytes())?;
    put_line(out, b" recycled")
}

/// Appends the header of the program of an object's verb.
pub fn put_program_line(out: &mut Vec<u8>, object: usize, verb: usize) -> Result<(), AllocError>
    ensures { OnOk result (out.new.items ≡ out.old.items ++ unlines (program_line object verb ∷ [])) }
{
    let mut buffer = Buffer::new();
    out.push(b'#')?;
    out.extend_from_slice(buffer.format(object).as_bytes())?;
    out.push(b':')?;
    put_count(out, verb)
}

fn put_source_lines(out: &mut Vec<u8>, source: &[MooStr]) -> Result<(), AllocError>
    ensures strings { OnOk result (All IsString source.now) }
    ensures lines { OnOk result (out.new.items ≡ out.old.items ++ unlines source.now) }
{
    for line in source {
        put_line(out, line.as_bytes())?;
    }
    Ok(())
}

/// Appends the program of an object's verb.
pub fn put_program(
    out: &mut Vec<u8>,
    object: usize,
    verb: usize,
    source: &[MooStr],
) -> Result<(), AllocError>
    // Each written line is a string.
    ensures strings { OnOk result (All IsString source.now) }
    ensures lines { OnOk result (out.new.items ≡ out.old.items ++ unlines (program_lines (record { object = object; verb = verb; source = source.now }))) }
{
    put_program_line(out, object, verb)?;
    put_source_lines(out, source)?;
    put_line(out, b".")
}

/// Appends the lines that count tasks, all of them 0.
pub fn put_tasks(out: &mut Vec<u8>) -> Result<(), AllocError>
    ensures { OnOk result (out.new.items ≡ out.old.items ++ unlines (tasks_lines [])) }
{
    put_line(out, b"0 clocks")?;
    put_line(out, b"0 queued tasks")?;
    put_line(out, b"0 suspended tasks")
}

fn put_connection(out: &mut Vec<u8>, connection: Connection) -> Result<(), AllocError>
    ensures { OnOk result (out.new.items ≡ out.old.items ++ unlines (link_line (link_of connection) ∷ [])) }
{
    let mut buffer = Buffer::new();
    out.extend_from_slice(buffer.format(connection.who).as_bytes())?;
    if let Some(listener) = connection.listener {
        out.push(b' ')?;
        return put_number(out, listener);
    }
    out.push(b'\n')?;
    Ok(())
}

fn put_links(out: &mut Vec<u8>, connections: &[Connection]) -> Result<(), AllocError>
    ensures { OnOk result (out.new.items ≡ out.old.items ++ unlines (map link_line (map link_of connections.now))) }
{
    for connection in connections {
        put_connection(out, *connection)?;
    }
    Ok(())
}

fn put_connection_count(out: &mut Vec<u8>, count: usize, words: &[u8]) -> Result<(), AllocError>
    ensures { OnOk result (out.new.items ≡ out.old.items ++ unlines ((count_line count ++ words.now) ∷ [])) }
{
    let mut buffer = Buffer::new();
    out.extend_from_slice(buffer.format(count).as_bytes())?;
    put_line(out, words)
}

/// Appends the last section in one of its forms.
pub fn put_connections(
    out: &mut Vec<u8>,
    form: Form,
    connections: &[Connection],
) -> Result<(), AllocError>
    ensures { OnOk result (out.new.items ≡ out.old.items ++ unlines (connections_lines form (map link_of connections.now))) }
{
    match form {
        Form::Absent => Ok(()),
        Form::Plain => {
            put_connection_count(out, connections.len(), b" active connections")?;
            put_links(out, connections)
        }
        Form::WithListeners => {
            put_connection_count(
                out,
                connections.len(),
                b" active connections with listeners",
            )?;
            put_links(out, connections)
        }
    }
}
