//! Lines that are more than one number or string.
ghost use Rattle.std.specs.Prelude.{◌≡◌, ◌++◌, option_map};
ghost use Rattle.std.specs.Str.{bytes_eq};
ghost use Rattle.moo_dbtext_object.specs.Lines.{Gives, limited};
ghost use Rattle.moo_dbtext_record.specs.Programs.{row_of};
ghost use Rattle.std.specs.Prelude.{map, codes};
ghost use Rattle.moo_dbtext_record.specs.Texts.{link_of};
ghost use Rattle.moo_dbtext_record.specs.Headings.{parts_of, following, count_or, number_or, version_of, head_of, verb_named, program_head_of, tasks_of, form_of, connection_count_of, connection_of};

use crate::dump::{Connection, Form};
use crate::program_table::{Source, is_open};
use itoa::Buffer;
use moo_dbtext_object::{LineFault, Refusal, count, number};

/// Splits a line at the first byte `at`, which neither part has.
fn parts(line: &[u8], at: u8) -> Option<(&[u8], &[u8])>
    ensures { option_map (λ p. (p.0.now, p.1.now)) result ≡ parts_of at line.now }
{
    for (i, b) in line.iter().enumerate() {
        if *b == at {
            return Some((&line[..i], &line[i + 1..]));
        }
    }
    None
}

/// Returns what follows a prefix of the line.
fn rest_after<'a>(front: &[u8], line: &'a [u8]) -> Option<&'a [u8]>
    ensures { option_map (λ r. r.now) result ≡ following front.now line.now }
{
    line.strip_prefix(front)
}

#[tactic(auto, unfolding(crate::specs::Headings::count_or))]
fn count_or(fault: LineFault, line: &[u8]) -> Result<u32, Refusal>
    ensures { Gives (λ n. n) result (count_or fault line.now) }
{
    match count(line) {
        Err(Refusal::Fault(_)) => Err(Refusal::Fault(fault)),
        answer => answer,
    }
}

#[tactic(auto, unfolding(crate::specs::Headings::number_or))]
fn number_or(fault: LineFault, line: &[u8]) -> Result<i32, Refusal>
    ensures { Gives (λ z. z) result (number_or fault line.now) }
{
    match number(line) {
        Err(Refusal::Fault(_)) => Err(Refusal::Fault(fault)),
        answer => answer,
    }
}

/// Parses the header, and returns the version of the format, from 1 to 4.
#[tactic(auto, unfolding(crate::specs::Headings::version_of))]
pub(crate) fn version(line: &[u8]) -> Result<u32, Refusal>
    ensures { Gives (λ v. v) result (version_of line.now) }
{
    let Some(rest) = rest_after(b"** LambdaMOO Database, Format Version ", line) else {
        return Err(Refusal::Fault(LineFault::BadHeader));
    };
    let Some((digits, end)) = parts(rest, b' ') else {
        return Err(Refusal::Fault(LineFault::BadHeader));
    };
    let version = count_or(LineFault::BadHeader, digits)?;
    if end != b"**".as_slice() {
        return Err(Refusal::Fault(LineFault::BadHeader));
    }
    if version < 1 || version > 4 {
        return Err(Refusal::Fault(LineFault::Version(version)));
    }
    Ok(version)
}

fn is_joined(line: &[u8], front: &[u8], back: &[u8]) -> bool
    ensures { result ≡ bytes_eq line.now (front.now ++ back.now) }
{
    match line.strip_prefix(front) {
        Some(rest) => rest == back,
        None => false,
    }
}

/// Parses the header of object `number`. Returns true if the object exists, false if it was recycled.
#[tactic(auto, unfolding(crate::specs::Headings::head_of))]
pub(crate) fn head(number: usize, line: &[u8]) -> Result<bool, Refusal>
    ensures { Gives (λ b. b) result (head_of number line.now) }
{
    let [b'#', rest @ ..] = line else {
        return Err(Refusal::Fault(LineFault::BadObjectLine));
    };
    let mut buffer = Buffer::new();
    let digits = buffer.format(number).as_bytes();
    if rest == digits {
        return Ok(true);
    }
    if is_joined(rest, digits, b" recycled") {
        return Ok(false);
    }
    Err(Refusal::Fault(LineFault::BadObjectLine))
}

#[tactic(auto, unfolding(crate::specs::Headings::verb_named))]
fn verb_named(line: &[u8]) -> Result<(u32, u32), Refusal>
    ensures { Gives (λ p. p) result (verb_named line.now) }
{
    let Some(rest) = rest_after(b"#", line) else {
        return Err(Refusal::Fault(LineFault::BadProgramLine));
    };
    let Some((object, verb)) = parts(rest, b':') else {
        return Err(Refusal::Fault(LineFault::BadProgramLine));
    };
    let object = count_or(LineFault::BadProgramLine, object)?;
    let verb = count_or(LineFault::BadProgramLine, verb)?;
    Ok((object, verb))
}

/// Parses the header of a program. Returns its object and verb, which has no program so far.
#[tactic(auto, unfolding(crate::specs::Headings::program_head_of))]
pub(crate) fn program_head(
    programs: &[Vec<Option<Source>>],
    line: &[u8],
) -> Result<(u32, u32), Refusal>
    ensures { Gives (λ p. p) result (program_head_of (map row_of programs.now) line.now) }
{
    let (object, verb) = verb_named(line)?;
    if !is_open(programs, object as usize, verb as usize) {
        return Err(Refusal::Fault(LineFault::BadProgramLine));
    }
    Ok((object, verb))
}

/// Parses a line that counts tasks. Returns `PendingTasks` if there are any.
#[tactic(auto, unfolding(crate::specs::Headings::tasks_of))]
fn tasks(words: &[u8], line: &[u8]) -> Result<(), Refusal>
    ensures { Gives (λ _. tt) result (tasks_of words.now line.now) }
{
    let Some((digits, rest)) = parts(line, b' ') else {
        return Err(Refusal::Fault(LineFault::BadNumber));
    };
    let number = number(digits)?;
    if rest != words {
        return Err(Refusal::Fault(LineFault::BadNumber));
    }
    if number != 0 {
        return Err(Refusal::Fault(LineFault::PendingTasks));
    }
    Ok(())
}

/// Parses the line that counts clocks.
pub(crate) fn clocks(line: &[u8]) -> Result<(), Refusal>
    ensures { Gives (λ _. tt) result (tasks_of (codes "clocks") line.now) }
{
    tasks(b"clocks", line)
}

/// Parses the line that counts queued tasks.
pub(crate) fn queued_tasks(line: &[u8]) -> Result<(), Refusal>
    ensures { Gives (λ _. tt) result (tasks_of (codes "queued tasks") line.now) }
{
    tasks(b"queued tasks", line)
}

/// Parses the line that counts suspended tasks.
pub(crate) fn suspended_tasks(line: &[u8]) -> Result<(), Refusal>
    ensures { Gives (λ _. tt) result (tasks_of (codes "suspended tasks") line.now) }
{
    tasks(b"suspended tasks", line)
}

fn form(words: &[u8]) -> Result<Form, Refusal>
    ensures { Gives (λ f. f) result (form_of words.now) }
{
    if words == b"active connections".as_slice() {
        return Ok(Form::Plain);
    }
    if words == b"active connections with listeners".as_slice() {
        return Ok(Form::WithListeners);
    }
    Err(Refusal::Fault(LineFault::BadConnections))
}

/// Parses the header of the last section: its form, and the number of connections.
#[tactic(auto, unfolding(crate::specs::Headings::connection_count_of))]
pub(crate) fn connection_count(line: &[u8]) -> Result<(Form, u32), Refusal>
    ensures { Gives (λ p. p) result (connection_count_of limited line.now) }
{
    let Some((digits, words)) = parts(line, b' ') else {
        return Err(Refusal::Fault(LineFault::BadConnections));
    };
    let count = count_or(LineFault::BadConnections, digits)?;
    let form = form(words)?;
    if count > 1_000_000 {
        return Err(Refusal::Fault(LineFault::TooLarge));
    }
    Ok((form, count))
}

#[tactic(auto, unfolding(crate::specs::Headings::connection_of))]
pub(crate) fn connection(form: Form, line: &[u8]) -> Result<Connection, Refusal>
    ensures { Gives link_of result (connection_of form line.now) }
{
    if form != Form::WithListeners {
        let who = number_or(LineFault::BadConnections, line)?;
        return Ok(Connection {
            who,
            listener: None,
        });
    }
    let Some((who, listener)) = parts(line, b' ') else {
        return Err(Refusal::Fault(LineFault::BadConnections));
    };
    let who = number_or(LineFault::BadConnections, who)?;
    let listener = number_or(LineFault::BadConnections, listener)?;
    Ok(Connection {
        who,
        listener: Some(listener),
    })
}
