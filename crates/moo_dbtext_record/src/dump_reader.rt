//! A reader of whole texts, one line at a time.
ghost use Rattle.std.specs.Prelude.{◌≡◌, true, Ok, OnOk, Some, None, MatchOption};
ghost use Rattle.moo_dbtext_object.specs.Lines.{Gives, limited};
ghost use Rattle.moo_dbtext_object.specs.Objects.{object_of};
ghost use Rattle.moo_dbtext_object.specs.ObjectReading.{draft_of, given_by};
ghost use Rattle.moo_dbtext_record.specs.Programs.{entry_at};
ghost use Rattle.moo_dbtext_record.specs.Texts.{text_of};
ghost use Rattle.moo_dbtext_record.specs.DumpReading.{progress_of, verb_read, with_object, after_programs, after_objects, after_players, after_connections, after_object_line, after_source, dump_step, ended, start};
ghost use Rattle.moo_dbtext_record.specs.declared.dump_reader.Section.TheVariants as section;
ghost use Rattle.moo_dbtext_record.specs.Answer.{unended};
ghost use Rattle.moo_dbtext_record.specs.Sparing.{AreAlike, has_objects};

use crate::dump::{Dump, Form};
use crate::heading::{
    clocks, connection, connection_count, head, program_head, queued_tasks, suspended_tasks,
    version,
};
use crate::program_table::{Source, drop_source, no_programs, put_source, source_at};
use moo_dbtext_object::{
    LineFault, ObjectReader, ObjectRecord, Refusal, bounded_count, number, text,
};
use moo_value::MooStr;
use std::alloc::{AllocError, Global};
use std::mem;

/// The number of lines of a program to reserve memory for at first.
const SOURCE_ROOM: usize = 16;

/// The content of the next line.
#[derive(Clone, Copy)]
pub(crate) enum Section {
    Header,
    ObjectCount,
    ProgramCount,
    Unused,
    PlayerCount,
    Player,
    Head,
    Object,
    ProgramHead,
    Source,
    Clocks,
    Queued,
    Suspended,
    ConnectionCount,
    Connection,
    End,
}

/// A text that is being read.
#[derive(Drop)]
pub(crate) struct DumpReader {
    section: Section,
    dump: Dump,
    /// The number of players or connections after the one that is being read.
    left: u32,
    /// The number of objects after the one that is being read.
    objects_left: u32,
    /// The number of programs after the one that is being read.
    programs_left: u32,
    object: ObjectReader,
    /// The object whose verb's program is being read.
    program_object: u32,
    program_verb: u32,
    source: Source,
}

impl DumpReader {
    pub(crate) fn new(alloc: Global) -> DumpReader
        ensures { progress_of result ≡ start }
    {
        DumpReader {
            section: Section::Header,
            dump: Dump {
                version: 4,
                players: Vec::new(alloc),
                objects: Vec::new(alloc),
                programs: Vec::new(alloc),
                form: Form::Absent,
                connections: Vec::new(alloc),
            },
            left: 0,
            objects_left: 0,
            programs_left: 0,
            object: ObjectReader::new(alloc),
            program_object: 0,
            program_verb: 0,
            source: Vec::new(alloc),
        }
    }

    /// Returns the fault of a line without an end at this point.
    pub(crate) fn unended(&self) -> LineFault
        ensures { result ≡ unended self.now.section }
    {
        match self.section {
            Section::End => LineFault::TrailingBytes,
            _ => LineFault::Truncated,
        }
    }

    /// Returns the object and verb whose program's lines are being read.
    pub(crate) fn verb(&self) -> Option<(u32, u32)>
        ensures { result ≡ verb_read self.now.section (progress_of self.now) }
    {
        match self.section {
            Section::Source => Some((self.program_object, self.program_verb)),
            _ => None,
        }
    }

    /// Returns the lines of a verb's program, if all of them have come.
    pub(crate) fn source(&self, object: u32, verb: u32) -> Option<&[MooStr]>
        ensures { let table = (progress_of self.now).text.programs in
            MatchOption result (entry_at table object verb ≡ None) (λ s. entry_at table object verb ≡ Some s.now) }
    {
        source_at(&self.dump.programs, object as usize, verb as usize)
    }

    /// Returns what the lines so far hold.
    pub(crate) fn dump(&self) -> &Dump
        ensures { result.now ≡ self.now.dump }
    {
        &self.dump
    }

    /// Returns whether all objects have come.
    pub(crate) fn has_objects(&self) -> bool
        ensures { result ≡ has_objects self.now.section }
    {
        match self.section {
            Section::Header => false,
            Section::ObjectCount => false,
            Section::ProgramCount => false,
            Section::Unused => false,
            Section::PlayerCount => false,
            Section::Player => false,
            Section::Head => false,
            Section::Object => false,
            _ => true,
        }
    }

    /// Drops the lines of a verb's program. The reader still knows that the verb has one.
    pub(crate) fn drop_source(&mut self, alloc: Global, object: u32, verb: u32)
        ensures { AreAlike (progress_of self.old) (progress_of self.new) }
    {
        drop_source(
            alloc,
            &mut self.dump.programs,
            object as usize,
            verb as usize,
        );
    }

    fn expect_programs(&mut self, left: u32)
        ensures { progress_of self.new ≡ after_programs (progress_of self.old) (text_of self.old.dump) left }
    {
        if left == 0 {
            self.section = Section::Clocks;
            return;
        }
        self.programs_left = left - 1;
        self.section = Section::ProgramHead;
    }

    fn expect_objects(&mut self, left: u32)
        ensures { progress_of self.new ≡ after_objects (progress_of self.old) (text_of self.old.dump) left }
    {
        if left == 0 {
            self.expect_programs(self.programs_left);
            return;
        }
        self.objects_left = left - 1;
        self.section = Section::Head;
    }

    fn expect_players(&mut self, left: u32)
        ensures { progress_of self.new ≡ after_players (progress_of self.old) (text_of self.old.dump) left }
    {
        if left == 0 {
            self.expect_objects(self.objects_left);
            return;
        }
        self.left = left - 1;
        self.section = Section::Player;
    }

    fn expect_connections(&mut self, left: u32)
        ensures { progress_of self.new ≡ after_connections (progress_of self.old) (text_of self.old.dump) left }
    {
        if left == 0 {
            self.section = Section::End;
            return;
        }
        self.left = left - 1;
        self.section = Section::Connection;
    }

    fn push_object(&mut self, alloc: Global, object: ObjectRecord) -> Result<(), AllocError>
        ensures { OnOk result (progress_of self.new ≡ record (progress_of self.old) { text = with_object (text_of self.old.dump) (Some (object_of object)) }) }
    {
        let programs = no_programs(alloc, &object)?;
        self.dump.programs.push(programs)?;
        self.dump.objects.push(Some(object))?;
        Ok(())
    }

    // Appends the object to the others once its last line has come.
    #[inline(never)]
    fn end_object(&mut self, alloc: Global) -> Result<(), AllocError>
        requires { self.old.section ≡ section.Object }
        ensures { OnOk result (progress_of self.new ≡ after_object_line (progress_of self.old) (given_by true (draft_of self.old.object))) }
    {
        if let Some(object) = self.object.take_object(alloc) {
            self.push_object(alloc, object)?;
            self.expect_objects(self.objects_left);
        }
        Ok(())
    }

    // Takes a line of an object.
    #[tactic(auto, unfolding(crate::specs::DumpReading::dump_step))]
    fn object_line(&mut self, alloc: Global, line: &[u8]) -> Result<(), Refusal>
        requires { self.old.section ≡ section.Object }
        ensures { Gives (λ _. progress_of self.new) result (dump_step limited section.Object (progress_of self.old) line.now) }
    {
        if self.object.step(alloc, line)? {
            self.end_object(alloc)?;
        }
        Ok(())
    }

    fn push_recycled(&mut self, alloc: Global) -> Result<(), AllocError>
        ensures { OnOk result (progress_of self.new ≡ record (progress_of self.old) { text = with_object (text_of self.old.dump) None }) }
    {
        self.dump.programs.push(Vec::new(alloc))?;
        self.dump.objects.push(None)?;
        Ok(())
    }

    fn end_source(&mut self, alloc: Global)
        ensures { progress_of self.new ≡ after_source (progress_of self.old) }
    {
        let source = mem::replace(&mut self.source, Vec::new(alloc));
        let object = self.program_object as usize;
        let verb = self.program_verb as usize;
        put_source(&mut self.dump.programs, object, verb, source);
        self.expect_programs(self.programs_left);
    }

    /// Takes the next line.
    #[tactic(auto, unfolding(crate::specs::DumpReading::dump_step))]
    pub(crate) fn step(&mut self, alloc: Global, line: &[u8]) -> Result<(), Refusal>
        ensures { Gives (λ _. progress_of self.new) result (dump_step limited self.old.section (progress_of self.old) line.now) }
    {
        match self.section {
            Section::Header => {
                self.dump.version = version(line)?;
                self.section = Section::ObjectCount;
                Ok(())
            }
            Section::ObjectCount => {
                self.objects_left = bounded_count(line)?;
                self.section = Section::ProgramCount;
                Ok(())
            }
            Section::ProgramCount => {
                self.programs_left = bounded_count(line)?;
                self.section = Section::Unused;
                Ok(())
            }
            Section::Unused => {
                number(line)?;
                self.section = Section::PlayerCount;
                Ok(())
            }
            Section::PlayerCount => {
                self.expect_players(bounded_count(line)?);
                Ok(())
            }
            Section::Player => {
                self.dump.players.push(number(line)?)?;
                self.expect_players(self.left);
                Ok(())
            }
            Section::Head => {
                if head(self.dump.objects.len(), line)? {
                    self.section = Section::Object;
                    return Ok(());
                }
                self.push_recycled(alloc)?;
                self.expect_objects(self.objects_left);
                Ok(())
            }
            Section::Object => self.object_line(alloc, line),
            Section::ProgramHead => {
                let (object, verb) = program_head(&self.dump.programs, line)?;
                self.program_object = object;
                self.program_verb = verb;
                self.source.reserve_exact(SOURCE_ROOM)?;
                self.section = Section::Source;
                Ok(())
            }
            Section::Source => {
                if line == b".".as_slice() {
                    self.end_source(alloc);
                    return Ok(());
                }
                self.source.push(text(alloc, line)?)?;
                Ok(())
            }
            Section::Clocks => {
                clocks(line)?;
                self.section = Section::Queued;
                Ok(())
            }
            Section::Queued => {
                queued_tasks(line)?;
                self.section = Section::Suspended;
                Ok(())
            }
            Section::Suspended => {
                suspended_tasks(line)?;
                self.section = Section::ConnectionCount;
                Ok(())
            }
            Section::ConnectionCount => {
                let (form, count) = connection_count(line)?;
                self.dump.form = form;
                self.expect_connections(count);
                Ok(())
            }
            Section::Connection => {
                let connection = connection(self.dump.form, line)?;
                self.dump.connections.push(connection)?;
                self.expect_connections(self.left);
                Ok(())
            }
            Section::End => Err(Refusal::Fault(LineFault::TrailingBytes)),
        }
    }

    /// Returns the whole text, once no line is left.
    #[tactic(auto, unfolding(crate::specs::DumpReading::ended))]
    pub(crate) fn finish(self) -> Result<Dump, Refusal>
        ensures { Gives text_of result (ended (progress_of self)) }
    {
        match self.section {
            Section::End => Ok(self.dump),
            Section::ConnectionCount if self.dump.version < 4 => Ok(self.dump),
            _ => Err(Refusal::Fault(LineFault::Truncated)),
        }
    }
}
