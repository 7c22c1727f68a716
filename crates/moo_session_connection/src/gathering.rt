//! The lines that `.program` gathers.
ghost use Rattle.std.specs.Prelude.{◌≡◌, ◌++◌, ◌∷◌, [], OnOk};

use moo_value::MooStr;
use std::alloc::{AllocError, Global};
use std::marker::Model;

/// The lines that are to become the program of a verb.
#[derive(Drop)]
pub struct Gathering {
    object: i32,
    verb: MooStr,
    lines: Vec<MooStr>,
}

impl Model for Gathering {
    ghost use Rattle.moo_session_connection.specs.Gathering.{Gathering as Contents};

    ghost Value = { Contents };

    ghost view = { λ g. record { object = g.object; verb = g.verb; lines = g.lines.items } };
}

impl Gathering {
    /// Returns a gathering without lines, for a verb of an object. The verb is named as it was typed.
    pub fn new(alloc: Global, object: i32, verb: MooStr) -> Gathering
        ensures { result ≡ record { object = object; verb = verb; lines = [] } }
    {
        Gathering {
            object,
            verb,
            lines: Vec::new(alloc),
        }
    }

    /// Returns the object's number.
    pub fn object(&self) -> i32
        ensures { result ≡ self.now.object }
    {
        self.object
    }

    /// Returns the verb's name.
    pub fn verb(&self) -> &MooStr
        ensures { result.now ≡ self.now.verb }
    {
        &self.verb
    }

    /// Returns the lines so far.
    pub fn lines(&self) -> &[MooStr]
        ensures { result.now ≡ self.now.lines }
    {
        &self.lines
    }

    /// Appends a line. Fails only if memory runs out.
    pub fn push(&mut self, line: MooStr) -> Result<(), AllocError>
        ensures { OnOk result (self.new ≡ record self.old { lines = self.old.lines ++ line ∷ [] }) }
    {
        self.lines.push(line)?;
        Ok(())
    }
}
