//! The report of all that is refused.
ghost use Rattle.std.specs.Prelude.{◌≡◌, ◌++◌, codes, IfOk, OnOk};
ghost use Rattle.std.specs.Fmt.{decimal};
ghost use Rattle.std.specs.List.{flat_map};
ghost use Rattle.moo_cli_io.specs.Told.{fault_line};
ghost use Rattle.moo_cli_check.specs.Shown.{survey_text};

use itoa::Buffer;
use moo_cli_io::fault_line;
use moo_dbtext_read::DbFault;
use std::alloc::{AllocError, Global};

/// Returns a line for each refused program, and then their number, or the line of the fault that ends them. Fails
/// only if memory runs out.
pub(crate) fn survey_text(
    alloc: Global,
    faults: &[DbFault],
    end: Option<DbFault>,
) -> Result<Vec<u8>, AllocError>
    ensures { IfOk result (λ text. text.items ≡ survey_text faults.now end) }
{
    let mut text = fault_lines(alloc, faults)?;
    match end {
        Some(fault) => text.extend_from_slice(&fault_line(alloc, fault)?)?,
        None => put_number(&mut text, faults.len())?,
    }
    Ok(text)
}

fn fault_lines(alloc: Global, faults: &[DbFault]) -> Result<Vec<u8>, AllocError>
    ensures { IfOk result (λ text. text.items ≡ flat_map fault_line faults.now) }
{
    let mut text = Vec::new(alloc);
    for fault in faults {
        text.extend_from_slice(&fault_line(alloc, *fault)?)?;
    }
    Ok(text)
}

fn put_number(text: &mut Vec<u8>, count: usize) -> Result<(), AllocError>
    ensures { OnOk result (text.new.items ≡ text.old.items ++ (decimal count ++ codes " programs refused\n")) }
{
    let mut buffer = Buffer::new();
    text.extend_from_slice(buffer.format(count).as_bytes())?;
    text.extend_from_slice(b" programs refused\n")
}
