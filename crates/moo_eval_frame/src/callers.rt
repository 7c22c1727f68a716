//! The callers of the running code, step by step: 'MOO Tasks' of the LambdaMOO Programmer's Manual.
ghost use Rattle.std.specs.Prelude.{◌≡◌, ◌∷◌, [], ◌++◌, ◌-◌, length, List, IfOk, OnOk};
ghost use Rattle.moo_eval_frame.specs.State.{trace_frame, nearest_programmer};
ghost use Rattle.moo_eval_frame.specs.Frames.{frame_count};
ghost use Rattle.moo_eval_frame.specs.declared.frame.TraceFrame.{TraceFrame};
ghost use Rattle.moo_eval_frame.specs.declared.frame.TraceEntry.{TraceEntry};
ghost use Rattle.moo_eval_frame.specs.declared.frame.TraceEntry.TheVariants.{Verb, BuiltIn};

use crate::frame::{Running, TraceEntry};
use moo_value::MooStr;
use std::alloc::{AllocError, Global};
use std::marker::Model;

/// Holds the callers of the running code, the nearest first. They are borrowed from the calls that wait for it, so
/// that a call copies nothing of them.
#[cycle(callers)]
#[derive(Drop)]
pub struct Callers<'a> {
    /// How many of the entries are frames of verbs.
    frames: usize,
    nearest: Nearest<'a>,
}

/// The nearest caller, if there is one, with whose rights it ran, and its own callers.
#[cycle(callers)]
#[derive(Drop)]
enum Nearest<'a> {
    Nothing,
    /// It made the call itself.
    Caller(&'a Running, i32, &'a Callers<'a>),
    /// It called a built-in function of this name, which made the call.
    Through(&'static str, &'a Running, i32, &'a Callers<'a>),
}

impl<'a> Model for Callers<'a> {
    ghost use Rattle.std.specs.Prelude.{◌≡◌, List, length};
    ghost use Rattle.moo_eval_frame.specs.declared.frame.TraceEntry.{TraceEntry};

    ghost Value = { List TraceEntry };

    ghost use Rattle.moo_eval_frame.specs.Frames.{frame_count};
    ghost use Rattle.moo_eval_frame.specs.Callers.{entries_of};

    ghost view = { λ c. entries_of c.nearest };

    ghost invariant = { λ c. c.frames ≡ frame_count (entries_of c.nearest) };

    ghost size = { length };

    ghost use Rattle.std.proofs.Common.{arith};

    ghost size_decreases = { λ a h. Prim.grind arith };
}

impl<'a> Callers<'a> {
    /// Returns the callers of code that nothing has called.
    pub fn none() -> Callers<'a>
        ensures { result ≡ [] }
    {
        Callers {
            frames: 0,
            nearest: Nearest::Nothing,
        }
    }

    /// Returns the callers of code that the running code calls. The running code has these callers, and runs with the
    /// rights of this programmer. Err if there are 2^64 frames or more.
    #[inline(always)]
    pub fn called_by(
        running: &'a Running,
        programmer: i32,
        callers: &'a Callers<'a>,
    ) -> Result<Callers<'a>, AllocError>
        ensures { IfOk result (λ all. all ≡ Verb (trace_frame running.now programmer) ∷ callers.now) }
    {
        match callers.frames.checked_add(1) {
            Some(frames) => Ok(Callers {
                frames,
                nearest: Nearest::Caller(running, programmer, callers),
            }),
            None => Err(AllocError),
        }
    }

    /// Returns these callers with a built-in function before them, through which the nearest one made the call. If the
    /// nearest one isn't a frame of a verb, returns these callers alone.
    pub fn through(self, function: &'static str) -> Callers<'a>
        ensures { (f : TraceFrame) (rest : List TraceEntry) → self.entry ≡ Verb f ∷ rest → result ≡ BuiltIn function.now ∷ self.entry }
    {
        match self.nearest {
            Nearest::Caller(running, programmer, callers) => Callers {
                frames: self.frames,
                nearest: Nearest::Through(function, running, programmer, callers),
            },
            nearest => Callers {
                frames: self.frames,
                nearest,
            },
        }
    }

    /// Returns how many of them are frames of verbs.
    #[inline(always)]
    pub fn frames(&self) -> usize
        ensures { result ≡ frame_count self.now }
    {
        self.frames
    }

    /// Returns the programmer of the nearest frame of a verb, or #-1 if there is none.
    pub fn programmer(&self) -> i32
        ensures { result ≡ nearest_programmer self.now }
    {
        match &self.nearest {
            Nearest::Nothing => -1,
            Nearest::Caller(_, programmer, _) | Nearest::Through(_, _, programmer, _) => {
                *programmer
            }
        }
    }

    /// Returns the entries, the nearest first.
    pub fn to_vec(&self, alloc: Global) -> Result<Vec<TraceEntry>, AllocError>
        ensures { IfOk result (λ all. all.items ≡ self.now) }
    {
        let mut all = Vec::new(alloc);
        self.append_to(alloc, &mut all)?;
        Ok(all)
    }

    /// Appends the entries to a vector, the nearest first.
    pub(crate) fn append_to(
        &self,
        alloc: Global,
        all: &mut Vec<TraceEntry>,
    ) -> Result<(), AllocError>
        ensures { OnOk result (all.new.items ≡ all.old.items ++ self.now) }
    {
        let mut rest = self;
        'callers: loop {
            match &rest.nearest {
                Nearest::Nothing => return Ok(()),
                Nearest::Caller(running, programmer, callers) => {
                    all.push(TraceEntry::Verb(running.trace_frame(*programmer)?))?;
                    rest = callers;
                }
                Nearest::Through(function, running, programmer, callers) => {
                    all.push(built_in(alloc, function)?)?;
                    all.push(TraceEntry::Verb(running.trace_frame(*programmer)?))?;
                    rest = callers;
                }
            }
        }
    }

    /// Returns `many` less the number of these entries, or 0 if there are more of them.
    pub fn remaining(&self, many: usize) -> usize
        ensures { result ≡ many - length self.now }
    {
        let mut count = many;
        let mut rest = self;
        'callers: loop {
            match &rest.nearest {
                Nearest::Nothing => return count,
                Nearest::Caller(_, _, callers) => {
                    count = count.saturating_sub(1);
                    rest = callers;
                }
                Nearest::Through(_, _, _, callers) => {
                    count = count.saturating_sub(2);
                    rest = callers;
                }
            }
        }
    }
}

// Returns the entry of a built-in function.
fn built_in(alloc: Global, function: &str) -> Result<TraceEntry, AllocError>
    ensures { IfOk result (λ entry. entry ≡ BuiltIn function.now) }
{
    match MooStr::try_from_bytes(alloc, function.as_bytes()) {
        Ok(name) => Ok(TraceEntry::BuiltIn(name)),
        Err(_) => Err(AllocError),
    }
}
