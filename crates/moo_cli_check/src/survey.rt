//! The refused programs of a text that comes in pieces.
ghost use Rattle.std.specs.Prelude.{◌≡◌, ◌++◌, ℕ, List, [], Some, OnOk, IfErr, IfNone, IfSome};
ghost use Rattle.moo_syntax_ast.specs.Tree.{Block};
ghost use Rattle.moo_syntax_grammar.specs.declared.names.Names.TheVariants.{Any};
ghost use Rattle.moo_syntax_grammar.specs.Texts.{IsParsed};
ghost use Rattle.moo_dbtext_object.specs.Lines.{Line};
ghost use Rattle.moo_dbtext_record.specs.Programs.{entry_at};
ghost use Rattle.moo_dbtext_record.specs.Sparing.{AreAlikeTaken};
ghost use Rattle.moo_dbtext_record.specs.Answer.{IsGoing, taken_of};
ghost use Rattle.moo_dbtext_read.specs.Reading.{IsSourceRefused, sources_at};
ghost use Rattle.moo_cli_check.specs.Reading.{IsAfter, IsNoted, IsEnded, IsWholly, SurveysOn};

use moo_dbtext_read::{kind_of_source, take_line};
use moo_dbtext_record::{DbFault, DbFaultKind, LineSink, RecordReader, feed_lines};
use moo_syntax::{Names, parse};
use std::alloc::Global;

/// Returns the fault of the source of a verb whose dot has come, or `None` if the source is a program.
fn source_fault(alloc: Global, records: &RecordReader, object: u32, verb: u32) -> Option<DbFault>
    ensures none { IfNone result ((source : List Line) → entry_at (sources_at records.now) object verb ≡ Some source → (b : Block) × IsParsed Any source b) }
    ensures some { IfSome result (λ e. (source : List Line) → entry_at (sources_at records.now) object verb ≡ Some source → IsSourceRefused (taken_of records.now).lines object verb source e) }
{
    let source = records.source(object, verb)?;
    let Err(fault) = parse(alloc, source, Names::Any) else {
        return None;
    };
    let lines = records.lines();
    Some(DbFault {
        line: lines.saturating_sub(source.len() as u64).saturating_sub(1),
        kind: kind_of_source(object, verb, &fault),
    })
}

/// Reads a text in pieces, parses each program at the dot that ends it, and collects those that are refused.
#[derive(Drop)]
pub(crate) struct Survey {
    records: RecordReader,
    faults: Vec<DbFault>,
}

impl Survey {
    /// Returns a reader that expects the first byte.
    pub(crate) fn new(alloc: Global) -> Survey
        ensures { IsAfter result [] }
    {
        Survey {
            records: RecordReader::new(alloc),
            faults: Vec::new(alloc),
        }
    }

    /// Notes the program of a verb whose dot has come if it is refused, and drops its lines. Fails only if memory runs out.
    fn note(&mut self, alloc: Global, object: u32, verb: u32) -> Result<(), DbFault>
        ensures noted { OnOk result ((source : List Line) → entry_at (sources_at self.old.records) object verb ≡ Some source → IsNoted self.old.faults.items self.new.faults.items (taken_of self.old.records).lines object verb source) }
        ensures memory { IfErr result (λ e. e.kind ≡ DbFaultKind.Memory) }
        ensures alike { AreAlikeTaken (taken_of self.old.records) (taken_of self.new.records) }
        ensures going { IsGoing self.old.records → IsGoing self.new.records }
    {
        let noted = source_fault(alloc, &self.records, object, verb);
        self.records.drop_source(alloc, object, verb);
        let Some(fault) = noted else {
            return Ok(());
        };
        if let DbFaultKind::Memory = fault.kind {
            return Err(fault);
        }
        match self.faults.push(fault) {
            Ok(()) => Ok(()),
            Err(_) => Err(DbFault {
                line: fault.line,
                kind: DbFaultKind::Memory,
            }),
        }
    }

    /// Takes the next piece of the text. Returns the fault of the first line that is wrong where it is, or `Memory`.
    pub(crate) fn feed(&mut self, alloc: Global, piece: &[u8]) -> Result<(), DbFault>
        ensures goes { (bytes : List ℕ) → IsAfter self.old bytes → OnOk result (IsAfter self.new (bytes ++ piece.now)) }
        ensures stops { (bytes : List ℕ) → IsAfter self.old bytes → IfErr result (IsEnded (bytes ++ piece.now) self.new.faults.items) }
    {
        feed_lines(self, alloc, piece)
    }

    /// Returns the refused programs so far.
    pub(crate) fn into_faults(self) -> Vec<DbFault>
        ensures { result ≡ self.faults }
    {
        self.faults
    }

    /// Returns the refused programs, once the whole text has been fed, and the fault of a line that ends them.
    pub(crate) fn finish(self) -> (Vec<DbFault>, Option<DbFault>)
        ensures { (bytes : List ℕ) → IsAfter self bytes → IsWholly bytes result.0.items result.1 }
    {
        if let Err(fault) = self.records.finish() {
            return (self.faults, Some(DbFault::from(fault)));
        }
        (self.faults, None)
    }
}

impl LineSink for Survey {
    type Fault = DbFault;

    ghost takes = { SurveysOn };

    fn take_line(&mut self, alloc: Global, line: &[u8]) -> Result<(), DbFault> {
        match take_line(alloc, &mut self.records, line)? {
            Some((object, verb)) => self.note(alloc, object, verb),
            None => Ok(()),
        }
    }

    fn take_part(&mut self, alloc: Global, part: &[u8]) -> Result<(), DbFault> {
        self.records.feed(alloc, part)?;
        Ok(())
    }
}
