//! The lines of a traceback: the error and its frames.
ghost use Rattle.std.specs.Prelude.{◌≡◌, ◌++◌, codes, map, IfOk, OnOk};
ghost use Rattle.moo_value.specs.Tree.{object};
ghost use Rattle.moo_value.specs.Text.{literal};
ghost use Rattle.moo_eval_control.specs.Traceback.{this_text, frame_text, entry_text, caller_line, entry_lines, texts, traceback};

use moo_eval_frame::{TraceEntry, TraceFrame};
use moo_value::Value;
use std::alloc::{AllocError, Global};

/// Returns the lines of a traceback, the first entry of `trace` first, with this text in the first line. Err is out of
/// memory.
pub fn traceback_lines(
    alloc: Global,
    text: &[u8],
    trace: &[TraceEntry],
) -> Result<Vec<Vec<u8>>, AllocError>
    ensures { IfOk result (λ lines. texts lines.items ≡ traceback text.now trace.now) }
{
    let mut lines = Vec::new(alloc);
    add_entries(alloc, text, trace, &mut lines)?;
    lines.push(Vec::from_slice(alloc, b"(End of traceback)")?)?;
    Ok(lines)
}

fn add_entries(
    alloc: Global,
    text: &[u8],
    trace: &[TraceEntry],
    lines: &mut Vec<Vec<u8>>,
) -> Result<(), AllocError>
    ensures { OnOk result (texts lines.new.items ≡ texts lines.old.items ++ entry_lines text.now trace.now) }
{
    let Some((entry, callers)) = trace.split_first() else {
        return Ok(());
    };
    lines.push(first_line(alloc, entry, text)?)?;
    add_callers(alloc, callers, lines)?;
    Ok(())
}

fn first_line(alloc: Global, entry: &TraceEntry, text: &[u8]) -> Result<Vec<u8>, AllocError>
    ensures { IfOk result (λ line. line.items ≡ entry_text entry.now ++ codes ":  " ++ text.now) }
{
    let mut line = Vec::new(alloc);
    write_entry(alloc, entry, &mut line)?;
    line.extend_from_slice(b":  ")?;
    line.extend_from_slice(text)?;
    Ok(line)
}

fn add_callers(
    alloc: Global,
    callers: &[TraceEntry],
    lines: &mut Vec<Vec<u8>>,
) -> Result<(), AllocError>
    ensures { OnOk result (texts lines.new.items ≡ texts lines.old.items ++ map caller_line callers.now) }
{
    for caller in callers {
        lines.push(caller_line(alloc, caller)?)?;
    }
    Ok(())
}

fn caller_line(alloc: Global, caller: &TraceEntry) -> Result<Vec<u8>, AllocError>
    ensures { IfOk result (λ line. line.items ≡ caller_line caller.now) }
{
    let mut line = Vec::from_slice(alloc, b"... called from ")?;
    write_entry(alloc, caller, &mut line)?;
    Ok(line)
}

fn write_entry(alloc: Global, entry: &TraceEntry, line: &mut Vec<u8>) -> Result<(), AllocError>
    ensures { OnOk result (line.new.items ≡ line.old.items ++ entry_text entry.now) }
{
    match entry {
        TraceEntry::Verb(frame) => write_frame(alloc, frame, line),
        TraceEntry::BuiltIn(name) => {
            line.extend_from_slice(b"built-in function ")?;
            line.extend_from_slice(name.as_bytes())?;
            line.extend_from_slice(b"()")
        }
    }
}

fn write_frame(alloc: Global, frame: &TraceFrame, line: &mut Vec<u8>) -> Result<(), AllocError>
    ensures { OnOk result (line.new.items ≡ line.old.items ++ frame_text frame.now) }
{
    write_object(alloc, frame.definer, line)?;
    line.push(b':')?;
    line.extend_from_slice(frame.names.as_bytes())?;
    write_this(alloc, frame, line)?;
    Ok(())
}

fn write_this(alloc: Global, frame: &TraceFrame, line: &mut Vec<u8>) -> Result<(), AllocError>
    ensures { OnOk result (line.new.items ≡ line.old.items ++ this_text frame.now) }
{
    if frame.this == frame.definer {
        return Ok(());
    }
    line.extend_from_slice(b" (this == ")?;
    write_object(alloc, frame.this, line)?;
    line.push(b')')?;
    Ok(())
}

fn write_object(alloc: Global, number: i32, line: &mut Vec<u8>) -> Result<(), AllocError>
    ensures { OnOk result (line.new.items ≡ line.old.items ++ literal (object number)) }
{
    let text = Value::Obj(number).to_literal(alloc)?;
    line.extend_from_slice(&text)
}
