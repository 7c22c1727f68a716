//! A reader of values, one line at a time.
ghost use Rattle.std.specs.Prelude.{◌≡◌, ◌≢◌, length, option_map, IfOk, IfErr};
ghost use Rattle.moo_value.specs.View.{tree, trees};
ghost use Rattle.moo_dbtext_object.specs.Lines.{Gives, limited};
ghost use Rattle.moo_dbtext_object.specs.declared.fault.Refusal.TheVariants.{Memory};
ghost use Rattle.moo_dbtext_object.specs.declared.value_reader.Expected.TheVariants as expected;
ghost use Rattle.std.specs.Prelude.{nat_lt};
ghost use Rattle.moo_value.specs.Size.{depth_limit};
ghost use Rattle.moo_dbtext_object.specs.Reading.{type_of, error_of, take_room, closed, after_value, after_count, value_line, begun, partial_of, innermost_first, ended_by, IsPutDown};

use crate::fault::{LineFault, Refusal};
use crate::line::{count, number, small};
use crate::string_interner::StringInterner;
use moo_value::{DEPTH_LIMIT, ErrorCode, ListLimit, MooList, Value};
use std::alloc::Global;

/// The content of the next line.
#[derive(Clone, Copy)]
enum Expected {
    Type,
    Int,
    Obj,
    Str,
    Error,
    Count,
}

/// A list whose elements are being read.
#[derive(Drop)]
struct OpenList {
    items: Vec<Value>,
    /// The number of elements after the one that is being read.
    left: u32,
}

/// Holds a value that is being read.
#[derive(Drop)]
pub struct ValueReader {
    expected: Expected,
    /// The weight that is left for the rest of the value.
    room: u32,
    /// The lists around the value that is being read, the innermost last.
    lists: Vec<OpenList>,
    /// The strings of this value and of those before it.
    met: StringInterner,
}

/// The greatest weight of a value, less 1.
const FULL_ROOM: u32 = 999_999;

#[tactic(auto, unfolding(crate::specs::Reading::type_of))]
fn expected_after(line: &[u8]) -> Result<Expected, Refusal>
    ensures gives { Gives (λ e. e) result (type_of line.now) }
    ensures memory { IfErr result (λ e. e ≢ Memory) }
{
    match number(line)? {
        0 => Ok(Expected::Int),
        1 => Ok(Expected::Obj),
        2 => Ok(Expected::Str),
        3 => Ok(Expected::Error),
        4 => Ok(Expected::Count),
        9 => Err(Refusal::Fault(LineFault::FloatValue)),
        _ => Err(Refusal::Fault(LineFault::BadType)),
    }
}

#[tactic(auto, unfolding(crate::specs::Reading::error_of))]
fn error(line: &[u8]) -> Result<ErrorCode, Refusal>
    ensures gives { Gives (λ e. e) result (error_of line.now) }
    ensures memory { IfErr result (λ e. e ≢ Memory) }
{
    let number = small(line, 15)?;
    match ErrorCode::from_number(number) {
        Some(error) => Ok(error),
        None => Err(Refusal::Fault(LineFault::BadNumber)),
    }
}

fn left_of(room: u32, amount: u32) -> Result<u32, Refusal>
    ensures gives { Gives (λ n. n) result (take_room limited amount room) }
    ensures memory { IfErr result (λ e. e ≢ Memory) }
{
    if amount > room {
        return Err(Refusal::Fault(LineFault::TooLarge));
    }
    Ok(room - amount)
}

// Returns for how many of `length` elements to reserve memory at first.
fn first_room(length: u32) -> usize {
    length.min(64) as usize
}

fn list(alloc: Global, elements: Vec<Value>) -> Result<Value, Refusal>
    ensures { Gives tree result (closed limited (trees elements.items)) }
{
    match MooList::try_from_vec(alloc, elements) {
        Ok(list) => Ok(Value::List(list)),
        Err(ListLimit::TooLarge) => Err(Refusal::Fault(LineFault::TooLarge)),
        Err(ListLimit::Memory) => Err(Refusal::Memory),
    }
}

impl ValueReader {
    /// Returns a reader that expects the first line of a value.
    pub fn new(alloc: Global) -> ValueReader
        ensures { partial_of result ≡ begun }
    {
        ValueReader {
            expected: Expected::Type,
            room: FULL_ROOM,
            lists: Vec::new(alloc),
            met: StringInterner::new(alloc),
        }
    }

    /// Returns a reader that expects the first line of another value. It keeps the strings that it has read.
    pub fn restarted(self, alloc: Global) -> ValueReader
        ensures { partial_of result ≡ begun }
    {
        ValueReader {
            expected: Expected::Type,
            room: FULL_ROOM,
            lists: Vec::new(alloc),
            met: self.met,
        }
    }

    fn complete(
        &mut self,
        alloc: Global,
        value: Value,
        whole: &mut Option<Value>,
    ) -> Result<bool, Refusal>
        ensures gives { Gives (λ ends. (partial_of self.new, ended_by ends whole.new)) result (after_value limited (tree value) self.old.room (innermost_first self.old.lists.items)) }
        ensures put { IfOk result (λ ends. IsPutDown ends whole.old whole.new) }
    {
        let mut value = value;
        self.expected = Expected::Type;
        while let Some(mut open) = self.lists.pop() {
            open.items.push(value)?;
            if open.left > 0 {
                open.left -= 1;
                self.lists.push(open)?;
                return Ok(false);
            }
            value = list(alloc, open.items)?;
        }
        self.room = FULL_ROOM;
        *whole = Some(value);
        Ok(true)
    }

    #[tactic(auto, using(crate::proofs::Stack::innermost_first_push))]
    fn open(
        &mut self,
        alloc: Global,
        length: u32,
        whole: &mut Option<Value>,
    ) -> Result<bool, Refusal>
        ensures gives { Gives (λ ends. (partial_of self.new, ended_by ends whole.new)) result (after_count limited length self.old.room (innermost_first self.old.lists.items)) }
        ensures put { IfOk result (λ ends. IsPutDown ends whole.old whole.new) }
    {
        if length == 0 {
            let empty = list(alloc, Vec::new(alloc))?;
            return self.complete(alloc, empty, whole);
        }
        self.expected = Expected::Type;
        self.lists.push(OpenList {
            items: Vec::with_capacity(alloc, first_room(length))?,
            left: length - 1,
        })?;
        Ok(false)
    }

    fn may_open(&self) -> bool
        ensures { result ≡ nat_lt (length (innermost_first self.now.lists.items)) depth_limit }
    {
        self.lists.len() < DEPTH_LIMIT as usize
    }

    /// Takes the next line of a value, and returns the value at its last line. Fails at the first line after which no
    /// value is within the size limits, or if the line has a fault, or if memory runs out.
    pub fn step(&mut self, alloc: Global, line: &[u8]) -> Result<Option<Value>, Refusal>
        ensures gives { Gives (λ o. (partial_of self.new, option_map tree o)) result (value_line limited (partial_of self.old) line.now) }
        // A line that holds a type needs no memory.
        ensures memory { (partial_of self.old).expected ≡ expected.Type → IfErr result (λ e. e ≢ Memory) }
    {
        let mut whole = None;
        if self.take_line(alloc, line, &mut whole)? {
            Ok(whole)
        } else {
            Ok(None)
        }
    }

    /// Takes the next line of a value, and returns whether it was the last. If so, puts the value into `whole`. Fails
    /// as `step` does.
    #[tactic(auto, unfolding(crate::specs::Reading::value_step))]
    pub fn take_line(
        &mut self,
        alloc: Global,
        line: &[u8],
        whole: &mut Option<Value>,
    ) -> Result<bool, Refusal>
        ensures gives { Gives (λ ends. (partial_of self.new, ended_by ends whole.new)) result (value_line limited (partial_of self.old) line.now) }
        ensures put { IfOk result (λ ends. IsPutDown ends whole.old whole.new) }
        // A line that holds a type needs no memory.
        ensures memory { (partial_of self.old).expected ≡ expected.Type → IfErr result (λ e. e ≢ Memory) }
    {
        match self.expected {
            Expected::Type => {
                let expected = expected_after(line)?;
                if matches!(expected, Expected::Count) && !self.may_open() {
                    return Err(Refusal::Fault(LineFault::TooLarge));
                }
                self.expected = expected;
                Ok(false)
            }
            Expected::Int => self.complete(alloc, Value::Int(number(line)?), whole),
            Expected::Obj => self.complete(alloc, Value::Obj(number(line)?), whole),
            Expected::Error => self.complete(alloc, Value::Err(error(line)?), whole),
            Expected::Str => {
                let string = self.met.text(alloc, line)?;
                self.room = left_of(self.room, string.len() as u32)?;
                self.complete(alloc, Value::Str(string), whole)
            }
            Expected::Count => {
                let length = count(line)?;
                self.room = left_of(self.room, length)?;
                self.open(alloc, length, whole)
            }
        }
    }
}
