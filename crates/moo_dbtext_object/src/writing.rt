//! Writers of the lists of numbers and of names in objects.
ghost use Rattle.std.specs.Prelude.{◌≡◌, ◌++◌, map, OnOk};
ghost use Rattle.std.specs.Fmt.{signed_decimal};
ghost use Rattle.moo_dbtext_object.specs.Lines.{unlines};

use crate::{put_line, put_number};
use moo_value::MooStr;
use std::alloc::AllocError;

/// Appends signed numbers, one line each. Fails only if memory runs out.
pub fn put_numbers(out: &mut Vec<u8>, numbers: &[i32]) -> Result<(), AllocError>
    ensures { OnOk result (out.new.items ≡ out.old.items ++ unlines (map signed_decimal numbers.now)) }
{
    for number in numbers {
        put_number(out, *number)?;
    }
    Ok(())
}

/// Appends names, one line each. Fails only if memory runs out.
pub fn put_names(out: &mut Vec<u8>, names: &[MooStr]) -> Result<(), AllocError>
    ensures { OnOk result (out.new.items ≡ out.old.items ++ unlines names.now) }
{
    for name in names {
        put_line(out, name.as_bytes())?;
    }
    Ok(())
}
