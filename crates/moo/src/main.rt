//! The program `moo`.
#![tactic(auto)]

mod service;

use crate::service::serve;
use clap::Error;
use clap::error::ErrorKind;
use moo_cli_args::{Work, not_utf8, read_words};
use moo_cli_check::{run_check, run_check_all, run_copy};
use moo_cli_expr::run_expr;
use moo_cli_io::{Device, ExitReason, log_error, open};
use moo_cli_script::run_script;
use moo_server::MooApplication;
use std::io::BufReader;
use std::os::fd::AsFd;
use std::process::ExitCode;
use std::{env, io};

/// The exit status of a command line that asks for nothing that the program does.
const USAGE: u8 = 2;

/// The name of standard input in the lines on its faults.
const INPUT: &str = "standard input";

/// The name of standard output in the lines on its faults.
const OUTPUT: &str = "standard output";

fn main(rt: HostRuntime) -> ExitCode {
    match run(&rt) {
        Ok(status) => ExitCode::from(status),
        Err(error) => ExitCode::from(ExitReason::from(error).report(&mut io::writer(&rt))),
    }
}

// Runs the command that the command line names, and returns the exit status.
fn run(rt: &HostRuntime) -> io::Result<u8> {
    match env::args(rt) {
        Ok(words) => {
            let words: Vec<String> = words.collect(rt.alloc())?;
            run_words(rt, words.as_slice())
        }
        Err(error) if error.kind() == io::ErrorKind::InvalidData => {
            print_usage(rt, &not_utf8(rt.alloc())?)
        }
        Err(error) => Err(error),
    }
}

fn run_words(rt: &HostRuntime, words: &[String]) -> io::Result<u8> {
    match read_words(rt.alloc(), words) {
        Ok(Some(work)) => run_work(rt, work),
        Ok(None) => Ok(USAGE),
        Err(error) => print_usage(rt, &error),
    }
}

// Prints help to standard output, or a usage fault to standard error. A usage fault has status 2 also if standard
// error is closed or full.
fn print_usage(rt: &HostRuntime, error: &Error) -> io::Result<u8> {
    if error.kind() == ErrorKind::OutOfMemory {
        return Err(io::Error::from(io::ErrorKind::OutOfMemory));
    }
    let printed = error.print(rt);
    if error.use_stderr() {
        return Ok(USAGE);
    }
    if let Err(reason) = &printed {
        log_error(rt, OUTPUT, reason);
    }
    printed.map(|_| 0)
}

fn run_work(rt: &HostRuntime, work: Work) -> io::Result<u8> {
    let alloc = rt.alloc();
    let mut output = Device::new(rt, OUTPUT, io::writer(rt));
    match work {
        Work::Expr => {
            let mut input = BufReader::new(alloc, Device::new(rt, INPUT, rt.reader()))?;
            Ok(run_expr(alloc, &mut input, &mut output))
        }
        Work::Check(path) => Ok(run_check(alloc, &mut open(rt, path)?, &mut output)),
        Work::CheckAll(path) => Ok(run_check_all(alloc, &mut open(rt, path)?, &mut output)),
        Work::Copy(path) => Ok(run_copy(alloc, &mut open(rt, path)?, &mut output)),
        Work::Script(path) => {
            find_input(rt)?;
            let mut file = open(rt, path)?;
            let mut input = BufReader::new(alloc, Device::new(rt, INPUT, rt.reader()))?;
            Ok(run_script::<MooApplication, _, _, _, _>(
                alloc,
                rt,
                &mut file,
                &mut input,
                &mut output,
            ))
        }
        Work::Serve(service) => serve(rt, service),
    }
}

// Fails if standard input is closed. The database would get its descriptor, and be read as the script.
fn find_input(rt: &HostRuntime) -> io::Result<()> {
    match rt.stdin().as_fd().try_clone_to_owned() {
        Ok(_) => Ok(()),
        Err(error) => {
            log_error(rt, INPUT, &error);
            Err(error)
        }
    }
}
