//! Writers that append lines.
ghost use Rattle.std.specs.Prelude.{◌≡◌, ◌++◌, ◌∷◌, [], OnOk};
ghost use Rattle.std.specs.Fmt.{signed_decimal};
ghost use Rattle.moo_value.specs.Tree.{elements_of};
ghost use Rattle.moo_value.specs.View.{tree, trees};
ghost use Rattle.moo_dbtext_object.specs.Lines.{unlines, count_line};
ghost use Rattle.moo_dbtext_object.specs.ValueLines.{value_lines, elements_lines};

use itoa::Buffer;
use moo_value::Value;
use std::alloc::AllocError;

/// Appends a line and its end. Fails only if memory runs out.
pub fn put_line(out: &mut Vec<u8>, line: &[u8]) -> Result<(), AllocError>
    ensures { OnOk result (out.new.items ≡ out.old.items ++ unlines (line.now ∷ [])) }
{
    out.extend_from_slice(line)?;
    out.push(b'\n')?;
    Ok(())
}

// Appends a line of one byte. Most lines are one digit, and this reserves memory once.
fn put_byte(out: &mut Vec<u8>, byte: u8) -> Result<(), AllocError>
    ensures { OnOk result (out.new.items ≡ out.old.items ++ unlines ((byte ∷ []) ∷ [])) }
{
    out.reserve(2)?;
    out.push_reserved(byte);
    out.push_reserved(b'\n');
    Ok(())
}

/// Appends a count as a decimal line.
#[tactic(auto, using(std::proofs::lemmas::Fmt::decimal_digit))]
pub fn put_count(out: &mut Vec<u8>, count: usize) -> Result<(), AllocError>
    ensures { OnOk result (out.new.items ≡ out.old.items ++ unlines (count_line count ∷ [])) }
{
    if count < 10 {
        return put_byte(out, b'0' + count as u8);
    }
    let mut buffer = Buffer::new();
    put_line(out, buffer.format(count).as_bytes())
}

/// Appends a signed number as a decimal line.
pub fn put_number(out: &mut Vec<u8>, number: i32) -> Result<(), AllocError>
    ensures { OnOk result (out.new.items ≡ out.old.items ++ unlines (signed_decimal number ∷ [])) }
{
    if number >= 0 {
        return put_count(out, number as usize);
    }
    let mut buffer = Buffer::new();
    put_line(out, buffer.format(number).as_bytes())
}

/// Appends the lines of a value: the number of its type, and then its content.
#[cycle(values)]
pub fn put_value(out: &mut Vec<u8>, value: &Value) -> Result<(), AllocError>
    ensures { OnOk result (out.new.items ≡ out.old.items ++ unlines (value_lines (tree value.now))) }
{
    match value {
        Value::Int(number) => {
            put_byte(out, b'0')?;
            put_number(out, *number)
        }
        Value::Obj(number) => {
            put_byte(out, b'1')?;
            put_number(out, *number)
        }
        Value::Str(string) => {
            put_byte(out, b'2')?;
            put_line(out, string.as_bytes())
        }
        Value::Err(error) => {
            put_byte(out, b'3')?;
            put_count(out, error.number() as usize)
        }
        Value::List(list) => {
            put_byte(out, b'4')?;
            put_count(out, list.len())?;
            put_values(out, list.elements())?;
            Ok(())
        }
    }
}

#[cycle(values)]
fn put_values(out: &mut Vec<u8>, values: &[Value]) -> Result<(), AllocError>
    ensures { OnOk result (out.new.items ≡ out.old.items ++ unlines (elements_lines (elements_of (trees values.now)))) }
{
    for value in values {
        put_value(out, value)?;
    }
    Ok(())
}
