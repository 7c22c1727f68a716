// The arguments of a row's call: `#3` is an object, `3` an integer, `"rc"` a string, and `{` and `}` between blanks are
// round the elements of a list.
ghost use Rattle.std.specs.Prelude.{◌<◌};

use moo_value::{MooList, MooStr, Value};
use moo_world::{
    ObjectSpecifier, PrepositionSpecifier, PropPerms, VerbArgs, VerbPerms, WorldFault,
};
use moo_world_text::{
    object_specifier_from_text, preposition_specifier_from_text, prop_perms_from_text,
    verb_perms_from_text,
};
use std::alloc::Global;

const NO_PROP_PERMS: PropPerms = PropPerms {
    read: false,
    write: false,
    change_owner: false,
};

const NO_VERB_PERMS: VerbPerms = VerbPerms {
    read: false,
    write: false,
    execute: false,
    debug: false,
};

fn string(alloc: Global, bytes: &[u8]) -> Result<MooStr, WorldFault> {
    MooStr::try_from_bytes(alloc, bytes).map_err(|_| WorldFault::Memory)
}

fn list(alloc: Global, values: Vec<Value>) -> Result<Value, WorldFault> {
    match MooList::try_from_vec(alloc, values) {
        Ok(list) => Ok(Value::List(list)),
        Err(_) => Err(WorldFault::Memory),
    }
}

/// What a call is passed. An argument that isn't there, or is of another type, reads as nothing.
#[derive(Drop)]
pub struct Args {
    values: Vec<Value>,
    // Where the elements of the list begin that is read.
    begin: usize,
}

impl Args {
    /// Reads arguments with blanks between them.
    pub fn read(alloc: Global, text: &str) -> Result<Args, WorldFault> {
        let mut args = Args {
            values: Vec::new(alloc),
            begin: 0,
        };
        for (place, piece) in text.split('"').enumerate() {
            if place % 2 == 1 {
                args.push_string(alloc, piece)?;
            } else {
                args.push_words(alloc, piece)?;
            }
        }
        Ok(args)
    }

    fn push_string(&mut self, alloc: Global, text: &str) -> Result<(), WorldFault> {
        let string = string(alloc, text.as_bytes())?;
        self.values.push(Value::Str(string))?;
        Ok(())
    }

    fn push_words(&mut self, alloc: Global, text: &str) -> Result<(), WorldFault> {
        for word in text.split_whitespace() {
            self.push_word(alloc, word)?;
        }
        Ok(())
    }

    fn push_word(&mut self, alloc: Global, word: &str) -> Result<(), WorldFault> {
        match word {
            "{" => self.begin = self.values.len(),
            "}" => self.end_list(alloc)?,
            _ => self.values.push(number(word))?,
        }
        Ok(())
    }

    // The last values become one list.
    fn end_list(&mut self, alloc: Global) -> Result<(), WorldFault> {
        if self.begin <= self.values.len() {
            let elements = self.values.split_off(self.begin)?;
            self.values.push(list(alloc, elements)?)?;
        }
        Ok(())
    }

    pub fn values_mut(&mut self) -> &mut [Value] {
        &mut self.values
    }

    pub fn number(&self, place: usize) -> i32 {
        match self.values.get(place) {
            Some(Value::Int(number) | Value::Obj(number)) => *number,
            _ => 0,
        }
    }

    pub fn index(&self, place: usize) -> usize {
        usize::try_from(self.number(place)).unwrap_or(0)
    }

    pub fn is_on(&self, place: usize) -> bool {
        self.number(place) != 0
    }

    pub fn bytes(&self, place: usize) -> &[u8] {
        match self.values.get(place) {
            Some(Value::Str(string)) => string.as_bytes(),
            _ => b"",
        }
    }

    pub fn string(&self, alloc: Global, place: usize) -> Result<MooStr, WorldFault> {
        string(alloc, self.bytes(place))
    }

    pub fn value(&self, place: usize) -> Result<Value, WorldFault> {
        match self.values.get(place) {
            Some(value) => Ok(value.try_clone()?),
            None => Ok(Value::Int(0)),
        }
    }

    pub fn prop_perms(&self, place: usize) -> PropPerms {
        prop_perms_from_text(self.bytes(place)).unwrap_or(NO_PROP_PERMS)
    }

    pub fn verb_perms(&self, place: usize) -> VerbPerms {
        verb_perms_from_text(self.bytes(place)).unwrap_or(NO_VERB_PERMS)
    }

    /// Three specifiers from a place on.
    pub fn verb_args(&self, place: usize) -> VerbArgs
        requires { place < 8 }
    {
        VerbArgs {
            direct: object_specifier(self.bytes(place)),
            preposition: preposition_specifier(self.bytes(place + 1)),
            indirect: object_specifier(self.bytes(place + 2)),
        }
    }
}

fn object_specifier(text: &[u8]) -> ObjectSpecifier {
    object_specifier_from_text(text).unwrap_or(ObjectSpecifier::None)
}

fn preposition_specifier(text: &[u8]) -> PrepositionSpecifier {
    preposition_specifier_from_text(text).unwrap_or(PrepositionSpecifier::None)
}

// An object's number after `#`, or an integer; 0 if it is no number.
fn number(word: &str) -> Value {
    match word.strip_prefix('#') {
        Some(digits) => Value::Obj(digits.parse::<i32>().unwrap_or(0)),
        None => Value::Int(word.parse::<i32>().unwrap_or(0)),
    }
}
