//! The surface of `moo_eval`.
use moo_eval::{Connection, Ended, EvalLine, Frame, Login, Notice, Surroundings, TaskEnv};
use moo_syntax::Program;
use moo_value::{MooList, MooStr, Value};
use moo_world::World;
use std::alloc::{AllocError, Global};

pub fn eval_line(alloc: Global, line: &[u8]) -> Result<EvalLine, AllocError> {
    moo_eval::eval_line(alloc, line)
}

pub fn lines(line: EvalLine) -> (Vec<Vec<u8>>, u8) {
    let EvalLine { lines, status } = line;
    (lines, status)
}

pub fn run_task(alloc: Global, world: &mut World, start: Frame, env: &mut TaskEnv<'_>) -> Ended {
    moo_eval::run_task(alloc, world, start, env)
}

/// Returns the lines of a traceback, if there is one.
pub fn traceback(ended: Ended) -> Option<Vec<Vec<u8>>> {
    match ended {
        Ended::Value(_) => None,
        Ended::Uncaught(lines) => Some(lines),
        Ended::OutOfTicks(lines) => Some(lines),
        Ended::Memory => None,
    }
}

/// Returns a frame of a program, as a command has it.
pub fn frame(program: Program, numbers: [i32; 7], texts: [MooStr; 6], args: MooList) -> Frame {
    let [programmer, this, definer, caller, player, dobj, iobj] = numbers;
    let [names, verb, argstr, dobjstr, prepstr, iobjstr] = texts;
    Frame {
        program,
        d: true,
        programmer,
        this,
        definer,
        caller,
        player,
        dobj,
        iobj,
        names,
        verb,
        argstr,
        dobjstr,
        prepstr,
        iobjstr,
        args,
    }
}

/// Returns the environment of a task.
pub fn env<'a>(alloc: Global, moment: u32, connections: &'a [Connection]) -> TaskEnv<'a> {
    TaskEnv {
        surroundings: Surroundings {
            moment,
            connections,
        },
        notices: Vec::new(alloc),
    }
}

/// Returns a connection on which a player is connected.
pub fn connection(number: u16, player: i32, moment: u32) -> Connection {
    Connection {
        number,
        login: Some(Login { player, moment }),
        opened: moment,
        heard: None,
    }
}

/// Returns the number of a notice's form.
pub fn notice(notice: &Notice) -> u8 {
    match notice {
        Notice::Notify(_, _) => 0,
        Notice::BootPlayer(_) => 1,
        Notice::SetPlayerFlag(_, _) => 2,
        Notice::Recycle(_) => 3,
        Notice::DumpDatabase => 4,
        Notice::Shutdown(_) => 5,
        Notice::ServerLog(_) => 6,
    }
}

/// Returns the value, if a task ended with one.
pub fn ended_value(ended: Ended) -> Option<Value> {
    match ended {
        Ended::Value(value) => Some(value),
        _ => None,
    }
}
