//! A reader of objects, one line at a time.
ghost use Rattle.std.specs.Prelude.{◌≡◌, ◌++◌, true, map, option_map, None, OnOk};
ghost use Rattle.moo_dbtext_object.specs.Lines.{Gives, limited};
ghost use Rattle.moo_dbtext_object.specs.Objects.{object_of, verb_of};
ghost use Rattle.moo_world_object.specs.Numbers.{preposition_specifier_number};
ghost use Rattle.moo_dbtext_object.specs.ObjectReading.{draft_of, body_of, part_verb_of, fresh_draft, empty_body, is_clear, object_line, after_verb, after_name, after_cell, given_by, verbs_made, value_line_step};

use crate::field::{VerbBits, flags, note, preposition, property_perms, verb_bits};
use crate::object_record::{ObjectRecord, PropertyRecord, VerbRecord};
use crate::{Refusal, StringInterner, ValueReader, bounded_count, number, text};
use moo_value::{MooStr, Value};
use moo_world_object::{Flags, ObjectSpecifier, PrepositionSpecifier, VerbArgs, VerbPerms};
use std::alloc::{AllocError, Global};
use std::mem;

/// The content of the next line.
#[derive(Clone, Copy)]
enum Awaited {
    Name,
    Note,
    Flags,
    Owner,
    Location,
    Contents,
    Next,
    Parent,
    Child,
    Sibling,
    VerbCount,
    VerbNames,
    VerbOwner,
    VerbBits,
    VerbPreposition,
    NameCount,
    PropertyName,
    CellCount,
    Value,
    /// A later line of a value.
    Inside,
    CellOwner,
    CellPerms,
}

/// A verb that is being read.
#[derive(Drop)]
struct VerbDraft {
    names: Option<MooStr>,
    owner: i32,
    bits: VerbBits,
}

/// The parts of an object that were read so far, without its name.
#[derive(Drop)]
struct BodyDraft {
    flags: Flags,
    owner: i32,
    location: i32,
    contents: i32,
    next: i32,
    parent: i32,
    child: i32,
    sibling: i32,
    verbs: Vec<VerbRecord>,
    names: Vec<MooStr>,
    cells: Vec<PropertyRecord>,
}

/// Holds an object that is being read.
#[derive(Drop)]
pub struct ObjectReader {
    awaited: Awaited,
    name: Option<MooStr>,
    body: BodyDraft,
    /// The number of verbs, names or cells after the one that is being read.
    left: u32,
    verb: VerbDraft,
    value: ValueReader,
    cell: Option<Value>,
    cell_owner: i32,
    /// The names of the verbs of this object and of those before it.
    met: StringInterner,
}

fn empty(alloc: Global) -> BodyDraft
    ensures { body_of result ≡ empty_body }
{
    BodyDraft {
        flags: Flags::none(),
        owner: 0,
        location: 0,
        contents: 0,
        next: 0,
        parent: 0,
        child: 0,
        sibling: 0,
        verbs: Vec::new(alloc),
        names: Vec::new(alloc),
        cells: Vec::new(alloc),
    }
}

// Returns for how many of `count` verbs, names or cells to reserve memory at first.
fn first_room(count: u32) -> usize {
    count.min(64) as usize
}

fn no_verb() -> VerbDraft
    ensures { part_verb_of result ≡ fresh_draft.verb }
{
    let perms = VerbPerms {
        read: false,
        write: false,
        execute: false,
        debug: false,
    };
    VerbDraft {
        names: None,
        owner: 0,
        bits: VerbBits {
            perms,
            direct: ObjectSpecifier::None,
            indirect: ObjectSpecifier::None,
        },
    }
}

fn named(name: MooStr, body: BodyDraft) -> ObjectRecord
    ensures { object_of result ≡ record { name = name; body = body_of body } }
{
    ObjectRecord {
        name,
        flags: body.flags,
        owner: body.owner,
        location: body.location,
        contents: body.contents,
        next: body.next,
        parent: body.parent,
        child: body.child,
        sibling: body.sibling,
        verbs: body.verbs,
        names: body.names,
        cells: body.cells,
    }
}

impl ObjectReader {
    /// Returns a reader that expects the line of an object's name.
    pub fn new(alloc: Global) -> ObjectReader
        ensures { draft_of result ≡ fresh_draft }
    {
        ObjectReader {
            awaited: Awaited::Name,
            name: None,
            body: empty(alloc),
            left: 0,
            verb: no_verb(),
            value: ValueReader::new(alloc),
            cell: None,
            cell_owner: 0,
            met: StringInterner::new(alloc),
        }
    }

    fn expect_verbs(&mut self, left: u32)
        ensures { draft_of self.new ≡ after_verb (draft_of self.old) (body_of self.old.body) left }
    {
        if left == 0 {
            self.awaited = Awaited::NameCount;
            return;
        }
        self.left = left - 1;
        self.awaited = Awaited::VerbNames;
    }

    fn expect_names(&mut self, left: u32)
        ensures { draft_of self.new ≡ after_name (draft_of self.old) (body_of self.old.body) left }
    {
        if left == 0 {
            self.awaited = Awaited::CellCount;
            return;
        }
        self.left = left - 1;
        self.awaited = Awaited::PropertyName;
    }

    // Returns whether the object is complete.
    fn expect_cells(&mut self, left: u32) -> bool
        ensures { given_by result (draft_of self.new) ≡ after_cell (draft_of self.old) (body_of self.old.body) left }
    {
        if left == 0 {
            return true;
        }
        self.left = left - 1;
        self.awaited = Awaited::Value;
        false
    }

    /// Returns the object that was read, and expects the next one. Call it when `step` has returned true.
    pub fn take_object(&mut self, alloc: Global) -> Option<ObjectRecord>
        ensures { (draft_of self.new, option_map object_of result) ≡ given_by true (draft_of self.old) }
    {
        let ObjectReader {
            name,
            body,
            value,
            met,
            ..
        } = mem::replace(self, ObjectReader::new(alloc));
        self.value = value.restarted(alloc);
        self.met = met;
        match name {
            Some(name) => Some(named(name, body)),
            None => None,
        }
    }

    fn is_clear(&self, line: &[u8]) -> bool
        ensures { result ≡ is_clear (body_of self.now.body) line.now }
    {
        self.body.names.len() <= self.body.cells.len() && line == b"5".as_slice()
    }

    fn value_line(&mut self, alloc: Global, line: &[u8]) -> Result<(), Refusal>
        ensures { Gives (λ _. draft_of self.new) result (value_line_step limited (draft_of self.old) line.now) }
    {
        let is_whole = self.value.take_line(alloc, line, &mut self.cell)?;
        self.awaited = if is_whole {
            Awaited::CellOwner
        } else {
            Awaited::Inside
        };
        Ok(())
    }

    fn push_verb(&mut self, preposition: PrepositionSpecifier) -> Result<(), AllocError>
        ensures { OnOk result (draft_of self.new ≡ record (draft_of self.old) { verb = record (part_verb_of self.old.verb) { names = None }; body = record (body_of self.old.body) { verbs = map verb_of self.old.body.verbs.items ++ verbs_made self.old.verb.names (part_verb_of self.old.verb) (preposition_specifier_number preposition) } }) }
    {
        let Some(names) = self.verb.names.take() else {
            return Ok(());
        };
        let bits = self.verb.bits;
        let args = VerbArgs {
            direct: bits.direct,
            preposition,
            indirect: bits.indirect,
        };
        self.body.verbs.push(VerbRecord {
            names,
            owner: self.verb.owner,
            perms: bits.perms,
            args,
        })?;
        Ok(())
    }

    /// Takes the next line of an object, and returns whether it was the last. Fails if the line has a fault, or if
    /// memory runs out.
    #[tactic(auto, unfolding(crate::specs::ObjectReading::object_step))]
    pub fn step(&mut self, alloc: Global, line: &[u8]) -> Result<bool, Refusal>
        ensures { Gives (λ whole. given_by whole (draft_of self.new)) result (object_line limited (draft_of self.old) line.now) }
    {
        match self.awaited {
            Awaited::Name => {
                self.name = Some(text(alloc, line)?);
                self.awaited = Awaited::Note;
                Ok(false)
            }
            Awaited::Note => {
                note(line)?;
                self.awaited = Awaited::Flags;
                Ok(false)
            }
            Awaited::Flags => {
                self.body.flags = flags(line)?;
                self.awaited = Awaited::Owner;
                Ok(false)
            }
            Awaited::Owner => {
                self.body.owner = number(line)?;
                self.awaited = Awaited::Location;
                Ok(false)
            }
            Awaited::Location => {
                self.body.location = number(line)?;
                self.awaited = Awaited::Contents;
                Ok(false)
            }
            Awaited::Contents => {
                self.body.contents = number(line)?;
                self.awaited = Awaited::Next;
                Ok(false)
            }
            Awaited::Next => {
                self.body.next = number(line)?;
                self.awaited = Awaited::Parent;
                Ok(false)
            }
            Awaited::Parent => {
                self.body.parent = number(line)?;
                self.awaited = Awaited::Child;
                Ok(false)
            }
            Awaited::Child => {
                self.body.child = number(line)?;
                self.awaited = Awaited::Sibling;
                Ok(false)
            }
            Awaited::Sibling => {
                self.body.sibling = number(line)?;
                self.awaited = Awaited::VerbCount;
                Ok(false)
            }
            Awaited::VerbCount => {
                let count = bounded_count(line)?;
                self.body.verbs.reserve_exact(first_room(count))?;
                self.expect_verbs(count);
                Ok(false)
            }
            Awaited::VerbNames => {
                self.verb.names = Some(self.met.text(alloc, line)?);
                self.awaited = Awaited::VerbOwner;
                Ok(false)
            }
            Awaited::VerbOwner => {
                self.verb.owner = number(line)?;
                self.awaited = Awaited::VerbBits;
                Ok(false)
            }
            Awaited::VerbBits => {
                self.verb.bits = verb_bits(line)?;
                self.awaited = Awaited::VerbPreposition;
                Ok(false)
            }
            Awaited::VerbPreposition => {
                self.push_verb(preposition(line)?)?;
                self.expect_verbs(self.left);
                Ok(false)
            }
            Awaited::NameCount => {
                let count = bounded_count(line)?;
                self.body.names.reserve_exact(first_room(count))?;
                self.expect_names(count);
                Ok(false)
            }
            Awaited::PropertyName => {
                self.body.names.push(text(alloc, line)?)?;
                self.expect_names(self.left);
                Ok(false)
            }
            Awaited::CellCount => {
                let count = bounded_count(line)?;
                self.body.cells.reserve_exact(first_room(count))?;
                Ok(self.expect_cells(count))
            }
            Awaited::Value if self.is_clear(line) => {
                self.cell = None;
                self.awaited = Awaited::CellOwner;
                Ok(false)
            }
            Awaited::Value | Awaited::Inside => {
                self.value_line(alloc, line)?;
                Ok(false)
            }
            Awaited::CellOwner => {
                self.cell_owner = number(line)?;
                self.awaited = Awaited::CellPerms;
                Ok(false)
            }
            Awaited::CellPerms => {
                let perms = property_perms(line)?;
                let value = self.cell.take();
                let owner = self.cell_owner;
                self.body.cells.push(PropertyRecord {
                    value,
                    owner,
                    perms,
                })?;
                Ok(self.expect_cells(self.left))
            }
        }
    }
}
