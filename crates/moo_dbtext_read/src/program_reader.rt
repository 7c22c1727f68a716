//! A reader of texts that come in pieces, with the programs in them.
ghost use Rattle.std.specs.Prelude.{◌≡◌, ◌++◌, ℕ, List, [], Some, Ok, OnOk, IfErr, IfOk, IsErrOf};
ghost use Rattle.moo_dbtext_object.specs.Lines.{Line, limited};
ghost use Rattle.moo_dbtext_record.specs.Programs.{entry_at};
ghost use Rattle.moo_dbtext_record.specs.Texts.{text_of};
ghost use Rattle.moo_dbtext_record.specs.Sparing.{AreAlikeTaken, has_objects};
ghost use Rattle.moo_dbtext_record.specs.Answer.{IsGoing, IsWholeLine, Stops, taken_of, taken_on};
ghost use Rattle.moo_dbtext_record.specs.declared.fault.DbFault.{DbFault};
ghost use Rattle.moo_dbtext_read.specs.Says.{IsParsedAs, programs_of};
ghost use Rattle.moo_dbtext_read.specs.Reading.{ReadsOn, HasRead, IsWell, HasRefused, Answers, lines_of, ended_between, verb_at, sources_at, place_of, IsSourceRefused};

use crate::database::Database;
use crate::fault::kind_of_source;
use crate::program_rows::put_program;
use moo_dbtext_record::{
    DbFault, DbFaultKind, Dump, LineSink, RecordFault, RecordReader, feed_lines,
};
use moo_syntax::{Names, parse_with};
use moo_syntax_program::Program;
use moo_syntax_token::NameInterner;
use std::alloc::Global;

/// Takes a line with its end. Returns the object and verb whose program the line ends, if it ends one.
#[inline(always)]
pub fn take_line(
    alloc: Global,
    records: &mut RecordReader,
    line: &[u8],
) -> Result<Option<(u32, u32)>, RecordFault>
    requires { IsWholeLine line.now }
    ensures steps { IsGoing records.old → OnOk result (taken_on limited (taken_of records.old) line.now ≡ Ok (taken_of records.new)) }
    ensures stops { IsGoing records.old → IfErr result (λ e. Stops e (taken_on limited (taken_of records.old) line.now)) }
    ensures ok { OnOk result (IsGoing records.new) }
    ensures ended { IfOk result (λ verb. verb ≡ ended_between (verb_at records.old) (verb_at records.new)) }
{
    let verb = records.verb();
    records.feed_line(alloc, line)?;
    match records.verb() {
        Some(_) => Ok(None),
        None => Ok(verb),
    }
}

/// Parses the source of a verb. Returns `None` if it has none.
fn program_of(
    alloc: Global,
    known: &mut NameInterner,
    records: &RecordReader,
    object: u32,
    verb: u32,
) -> Result<Option<Program>, DbFault>
    ensures parsed { IfOk result (λ program. IsParsedAs (entry_at (sources_at records.now) object verb) program) }
    ensures refused { IfErr result (λ e. (source : List Line) → entry_at (sources_at records.now) object verb ≡ Some source → IsSourceRefused (taken_of records.now).lines object verb source e) }
{
    let Some(source) = records.source(object, verb) else {
        return Ok(None);
    };
    match parse_with(alloc, known, source, Names::Any) {
        Ok(program) => Ok(Some(program)),
        Err(fault) => {
            let lines = records.lines();
            Err(DbFault {
                line: lines.saturating_sub(source.len() as u64).saturating_sub(1),
                kind: kind_of_source(object, verb, &fault),
            })
        }
    }
}

/// Returns the contents of a text, with these programs in place of its sources.
fn with_programs(dump: Dump, programs: Vec<Vec<Option<Program>>>) -> Database
    ensures { result ≡ record { players = dump.players; objects = dump.objects; programs = programs; connections = dump.connections } }
{
    Database {
        players: dump.players,
        objects: dump.objects,
        programs,
        connections: dump.connections,
    }
}

/// Reads a text in pieces, and parses each program at the dot that ends it. After a fault each call returns that
/// fault.
#[derive(Drop)]
pub struct ProgramReader {
    records: RecordReader,
    programs: Vec<Vec<Option<Program>>>,
    /// The names that are used in the programs.
    known: NameInterner,
    /// Whether all bytes so far were taken, or the first fault.
    outcome: Result<(), DbFault>,
}

impl ProgramReader {
    /// Returns a reader that expects the first byte.
    pub fn new(alloc: Global) -> ProgramReader
        ensures taken { HasRead result [] }
        ensures well { IsWell result }
    {
        ProgramReader {
            records: RecordReader::new(alloc),
            programs: Vec::new(alloc),
            known: NameInterner::new(alloc),
            outcome: Ok(()),
        }
    }

    /// Returns the number of lines that have ended.
    pub fn lines(&self) -> u64
        ensures { result ≡ lines_of self.now }
    {
        self.records.lines()
    }

    /// Parses and keeps the program of a verb whose dot has come, and drops its lines.
    #[inline(never)]
    fn keep(&mut self, alloc: Global, object: u32, verb: u32) -> Result<(), DbFault>
        ensures there { OnOk result ((source : List Line) → entry_at (sources_at self.old.records) object verb ≡ Some source → IsParsedAs (Some source) (entry_at (programs_of self.new.programs) object verb)) }
        ensures others { OnOk result ((o v : ℕ) → (o ≡ object → v ≡ verb → ⊥) → entry_at (programs_of self.new.programs) o v ≡ entry_at (programs_of self.old.programs) o v) }
        ensures refused { IfErr result (λ e. (source : List Line) → entry_at (sources_at self.old.records) object verb ≡ Some source → IsSourceRefused (taken_of self.old.records).lines object verb source e) }
        ensures alike { AreAlikeTaken (taken_of self.old.records) (taken_of self.new.records) }
        ensures going { IsGoing self.old.records → IsGoing self.new.records }
    {
        let Some(program) = program_of(alloc, &mut self.known, &self.records, object, verb)? else {
            return Ok(());
        };
        match put_program(
            alloc,
            &mut self.programs,
            object as usize,
            verb as usize,
            program,
        ) {
            Ok(()) => {
                self.records.drop_source(alloc, object, verb);
                Ok(())
            }
            Err(_) => Err(DbFault {
                line: self.records.lines(),
                kind: DbFaultKind::Memory,
            }),
        }
    }

    /// Takes the next piece of the text. Returns the first fault, of a line or a program, or `Memory`.
    pub fn feed(&mut self, alloc: Global, piece: &[u8]) -> Result<(), DbFault>
        ensures taken { (bytes : List ℕ) → HasRead self.old bytes → HasRead self.new (bytes ++ piece.now) }
        ensures ok { OnOk result (IsWell self.new) }
        ensures failed { IfErr result (HasRefused self.new) }
        ensures again { (e : DbFault) → HasRefused self.old e → IsErrOf result e }
    {
        self.outcome?;
        self.outcome = feed_lines(self, alloc, piece);
        self.outcome
    }

    /// Takes the next line with its end, as `feed` does, without a search for the end.
    pub fn feed_line(&mut self, alloc: Global, line: &[u8]) -> Result<(), DbFault>
        requires { IsWholeLine line.now }
        ensures taken { (bytes : List ℕ) → HasRead self.old bytes → HasRead self.new (bytes ++ line.now) }
        ensures ok { OnOk result (IsWell self.new) }
        ensures failed { IfErr result (HasRefused self.new) }
        ensures again { (e : DbFault) → HasRefused self.old e → IsErrOf result e }
    {
        self.outcome?;
        self.outcome = self.take_line(alloc, line);
        self.outcome
    }

    /// Returns what the lines so far hold. The lines of a program are dropped at its dot.
    pub fn dump(&self) -> &Dump
        ensures { text_of result.now ≡ (place_of self.now).text }
    {
        self.records.dump()
    }

    /// Returns whether all objects have come.
    pub fn has_objects(&self) -> bool
        ensures { result ≡ has_objects (place_of self.now).section }
    {
        self.records.has_objects()
    }

    /// Returns the contents, once the whole text has been fed. Fails if a line is missing or has no end, or with an
    /// earlier fault.
    pub fn finish(self) -> Result<Database, DbFault>
        ensures answer { (bytes : List ℕ) → HasRead self bytes → Answers result bytes }
        ensures again { (e : DbFault) → HasRefused self e → IsErrOf result e }
    {
        self.outcome?;
        let dump = self.records.finish()?;
        Ok(with_programs(dump, self.programs))
    }
}

impl LineSink for ProgramReader {
    type Fault = DbFault;

    ghost takes = { ReadsOn };

    #[inline(always)]
    fn take_line(&mut self, alloc: Global, line: &[u8]) -> Result<(), DbFault> {
        match take_line(alloc, &mut self.records, line)? {
            Some((object, verb)) => self.keep(alloc, object, verb),
            None => Ok(()),
        }
    }

    fn take_part(&mut self, alloc: Global, part: &[u8]) -> Result<(), DbFault> {
        self.records.feed(alloc, part)?;
        Ok(())
    }
}
