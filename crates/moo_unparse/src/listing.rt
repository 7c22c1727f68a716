//! The listings of programs.
ghost use Rattle.std.specs.Prelude.{◌≡◌, ◌++◌, ◌∷◌, [], IfOk, IfErr, OnOk};
ghost use Rattle.std.specs.List.{All, flat_map};
ghost use Rattle.moo_value.specs.Size.{IsString};
ghost use Rattle.moo_value.specs.Tree.{IsText};
ghost use Rattle.moo_syntax_ast.specs.View.{block};
ghost use Rattle.moo_syntax_ast.specs.Listing.{listing};
ghost use Rattle.moo_unparse.specs.Listings.{listing_in, indented_listing, short_listing};
ghost use Rattle.moo_unparse.specs.Refused.{IsRefusedListing};

use crate::block::write_block;
use crate::fault::{ListFault, Memory};
use crate::form::{Form, Parentheses};
use crate::line::Line;
use moo_syntax_ast::Stmt;
use moo_syntax_program::Program;
use moo_value::MooStr;
use std::alloc::{AllocError, Global};

/// Returns the full listing of a program: its lines, with each operand that is an operator, a conditional or an
/// assignment in parentheses. It fails only out of memory.
pub fn list_full(alloc: Global, program: &Program) -> Result<Vec<MooStr>, Memory>
    ensures { IfOk result (λ lines. lines.items ≡ listing program.now) }
{
    let form = Form {
        parentheses: Parentheses::All,
        indent: false,
    };
    match list_in(alloc, form, program.statements()) {
        Ok(lines) => Ok(lines),
        Err(ListFault::Memory) => Err(Memory),
        Err(ListFault::TooHeavy) => unreachable!(),
    }
}

/// Appends the full listing of a program, each line with a line feed.
pub fn write_full(alloc: Global, program: &Program, out: &mut Vec<u8>) -> Result<(), AllocError>
    ensures lines { OnOk result (out.new.items ≡ out.old.items ++ flat_map (λ line. line ++ 10 ∷ []) (listing program.now)) }
    // Each of the lines is a string.
    ensures strings { OnOk result (All IsString (listing program.now)) }
{
    let form = Form {
        parentheses: Parentheses::All,
        indent: false,
    };
    let lines = lines_in(alloc, form, program.statements())?;
    put_lines(&lines, out)
}

fn put_lines(lines: &[Line], out: &mut Vec<u8>) -> Result<(), AllocError>
    ensures text { OnOk result (All IsText lines.now) }
    ensures lines { OnOk result (out.new.items ≡ out.old.items ++ flat_map (λ line. line ++ 10 ∷ []) lines.now) }
{
    for line in lines {
        line.put(out)?;
    }
    Ok(())
}

/// Returns the full listing of a program, indented by two blanks for each statement around a line. Refuses a line that
/// is too long for a string with `TooHeavy`.
pub fn list_full_indented(alloc: Global, program: &Program) -> Result<Vec<MooStr>, ListFault>
    ensures ok { IfOk result (λ lines. lines.items ≡ indented_listing program.now) }
    ensures refused { IfErr result (λ fault. IsRefusedListing fault (indented_listing program.now)) }
{
    let form = Form {
        parentheses: Parentheses::All,
        indent: true,
    };
    list_in(alloc, form, program.statements())
}

/// Returns the short listing of a program, with only the parentheses that the grammar requires, and indented if
/// `indent` is true. Refuses a line that is too long for a string with `TooHeavy`.
pub fn list_short(alloc: Global, program: &Program, indent: bool) -> Result<Vec<MooStr>, ListFault>
    ensures ok { IfOk result (λ lines. lines.items ≡ short_listing indent program.now) }
    ensures refused { IfErr result (λ fault. IsRefusedListing fault (short_listing indent program.now)) }
{
    let form = Form {
        parentheses: Parentheses::Needed,
        indent,
    };
    list_in(alloc, form, program.statements())
}

fn list_in(alloc: Global, form: Form, statements: &[Stmt]) -> Result<Vec<MooStr>, ListFault>
    ensures ok { IfOk result (λ lines. lines.items ≡ listing_in form (block statements.now)) }
    ensures refused { IfErr result (λ fault. IsRefusedListing fault (listing_in form (block statements.now))) }
{
    let lines = lines_in(alloc, form, statements)?;
    strings(alloc, lines)
}

fn lines_in(alloc: Global, form: Form, statements: &[Stmt]) -> Result<Vec<Line>, AllocError>
    ensures { IfOk result (λ lines. lines.items ≡ listing_in form (block statements.now)) }
{
    let margin = Line::new(alloc);
    let mut lines = Vec::new(alloc);
    write_block(alloc, form, &margin, statements, &mut lines)?;
    Ok(lines)
}

fn strings(alloc: Global, lines: Vec<Line>) -> Result<Vec<MooStr>, ListFault>
    ensures ok { IfOk result (λ strings. strings.items ≡ lines.items) }
    ensures refused { IfErr result (λ fault. IsRefusedListing fault lines.items) }
{
    let mut strings = Vec::new(alloc);
    for line in lines {
        let string = line.into_string(alloc)?;
        strings.push(string).map_err(|_| ListFault::Memory)?;
    }
    Ok(strings)
}
