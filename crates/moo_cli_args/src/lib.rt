//! Parses the command line.
//! An internal crate of `moo`.
#![tactic(auto)]

use clap::builder::ValueParser;
use clap::error::ErrorKind;
use clap::{Arg, ArgAction, ArgMatches, Command, Error, value_parser};
use std::alloc::{AllocError, Global};
use std::net::{IpAddr, Ipv4Addr};

/// The default number of rounds of `moo serve`.
const ROUNDS: &str = "1000000000";

/// The default address of `moo serve`.
const HOST: &str = "127.0.0.1";

/// The default number of bytes that may wait for a connection of `moo serve`.
const MOST_WAITING: &str = "16777216";

/// The names of the times before the lines of the log.
const TIMES: &[&str] = &["none", "utc", "local"];

/// The version that `--version` prints: what `server_version()` returns.
const VERSION: &str = "1.8-integer";

/// The command that the program is to run.
#[derive(Debug, Drop)]
pub enum Work<'a> {
    /// Evaluate the first line of the input.
    Expr,
    /// Report what the database of this path holds.
    Check(&'a str),
    /// Report what the database of this path holds, or every program of it that is refused.
    CheckAll(&'a str),
    /// Write the database of this path in its canonical form.
    Copy(&'a str),
    /// Run the events of the input on the database of this path, in memory.
    Script(&'a str),
    /// Serve a database to connections.
    Serve(Service<'a>),
}

/// The parameters of a server.
#[derive(Debug, Drop)]
pub struct Service<'a> {
    /// The path of the database.
    pub database: &'a str,
    /// The address on which to listen.
    pub host: IpAddr,
    /// The port, or 0 for any that is free.
    pub port: u16,
    /// The port for browsers, if they are served, or 0 for any that is free.
    pub web: Option<u16>,
    /// The origins of pages that may connect, besides those of this machine.
    pub web_origins: Vec<&'a str>,
    /// The greatest number of rounds of reading and writing.
    pub rounds: u64,
    /// The number of waiting bytes past which a connection is hung up.
    pub most_waiting: usize,
    /// The seconds within which somebody must log in on a connection, or 0 for no limit.
    pub login_seconds: u64,
    /// The greatest number of connections on which nobody has logged in, or 0 for no limit.
    pub most_unconnected: usize,
    /// The seconds after which a connection that has sent nothing is hung up, or 0 for no limit.
    pub idle_seconds: u64,
    /// Whether standard input and output are the operator's own connection.
    pub console: bool,
    /// Whether the commands of telnet are dropped from what clients send.
    pub telnet: bool,
    /// Whether the exit status says that the server ended without a last checkpoint.
    pub must_save: bool,
    /// The most lines of the log on logins in a second, or 0 for none.
    pub log_logins: u64,
    /// The time before each line of the log.
    pub log_times: Times,
}

/// The time before each line of the log.
#[derive(Clone, Copy, Debug, PartialEq, Eq)]
pub enum Times {
    /// No time.
    None,
    /// The universal time.
    Utc,
    /// The time of the machine's zone.
    Local,
}

/// Parses the words of the command line, the program's name first. Returns `None` if they name no command. If the help or
/// the version was asked for, returns an error whose `use_stderr` is false.
pub fn read_words<'a>(alloc: Global, words: &'a [String]) -> Result<Option<Work<'a>>, Error> {
    let matches = command(alloc)?.try_get_matches_from(words)?;
    match matches.subcommand() {
        Some(("serve", found)) => match (host_of(found), refused_origin(found)) {
            (None, _) => Err(no_address(alloc, found)?),
            (Some(_), Some(origin)) => Err(no_origin(alloc, origin)?),
            (Some(host), None) => Ok(service_of(alloc, found, host)?.map(Work::Serve)),
        },
        Some((name, found)) => Ok(work_of(name, found)),
        None => Ok(None),
    }
}

// Returns the address of `--host`. The name `localhost` is the address of this machine itself; other names aren't looked
// up.
fn host_of(found: &ArgMatches) -> Option<IpAddr> {
    match found.get_str("host") {
        Some("localhost") => Some(IpAddr::V4(Ipv4Addr::LOCALHOST)),
        _ => found.get_one::<IpAddr>("host"),
    }
}

// Returns the first value of `--web-origin` that is no origin.
fn refused_origin<'a>(found: &ArgMatches<'a>) -> Option<&'a str> {
    let origins = found.get_strs("web-origin")?;
    origins.iter().find(|origin| !is_origin(origin)).copied()
}

// Is true for a scheme, `://` and a host, perhaps with a port. One slash may come after them.
fn is_origin(text: &str) -> bool {
    match text.split_once("://") {
        Some((scheme, rest)) => {
            let host = rest.strip_suffix("/").unwrap_or(rest);
            is_scheme(scheme) && is_host(host)
        }
        None => false,
    }
}

// Is true for a scheme, as `https`.
fn is_scheme(text: &str) -> bool {
    !text.is_empty() && text.bytes().all(is_scheme_byte)
}

fn is_scheme_byte(byte: u8) -> bool {
    byte.is_ascii_alphanumeric() || matches!(byte, b'+' | b'-' | b'.')
}

// Is true for the name or the address of a host, perhaps with a port.
fn is_host(text: &str) -> bool {
    !text.is_empty() && !text.starts_with(":") && text.bytes().all(is_host_byte)
}

// An address of the sixth version is written in brackets.
fn is_host_byte(byte: u8) -> bool {
    byte.is_ascii_alphanumeric() || matches!(byte, b'.' | b'-' | b'_' | b':' | b'[' | b']')
}

fn work_of<'a>(name: &str, found: &ArgMatches<'a>) -> Option<Work<'a>> {
    match name {
        "expr" => Some(Work::Expr),
        "check" if found.get_flag("all") => found.get_str("DB").map(Work::CheckAll),
        "check" => found.get_str("DB").map(Work::Check),
        "copy" => found.get_str("DB").map(Work::Copy),
        "script" => found.get_str("DB").map(Work::Script),
        _ => None,
    }
}

fn service_of<'a>(
    alloc: Global,
    found: &ArgMatches<'a>,
    host: IpAddr,
) -> Result<Option<Service<'a>>, AllocError> {
    let web_origins = match found.get_strs("web-origin") {
        Some(origins) => Vec::from_slice(alloc, origins)?,
        None => Vec::new(alloc),
    };
    Ok(service_with(found, host, web_origins))
}

fn service_with<'a>(
    found: &ArgMatches<'a>,
    host: IpAddr,
    web_origins: Vec<&'a str>,
) -> Option<Service<'a>> {
    Some(Service {
        database: found.get_str("DB")?,
        host,
        port: found.get_one::<u16>("PORT")?,
        web: found.get_one::<u16>("web"),
        web_origins,
        rounds: found.get_one::<u64>("rounds")?,
        most_waiting: found.get_one::<usize>("most-waiting")?,
        login_seconds: found.get_one::<u64>("login-seconds")?,
        most_unconnected: found.get_one::<usize>("most-unconnected")?,
        idle_seconds: found.get_one::<u64>("idle-seconds")?,
        console: found.get_flag("console"),
        telnet: found.get_flag("telnet"),
        must_save: found.get_flag("must-save"),
        log_logins: found.get_one::<u64>("log-logins")?,
        log_times: times_of(found),
    })
}

fn times_of(found: &ArgMatches) -> Times {
    match found.get_str("log-times") {
        Some("utc") => Times::Utc,
        Some("local") => Times::Local,
        _ => Times::None,
    }
}

/// Returns the usage fault of a command line with an argument that isn't UTF-8. Fails only if memory runs out.
pub fn not_utf8(alloc: Global) -> Result<Error, AllocError> {
    command(alloc)?.error(ErrorKind::InvalidValue, "an argument isn't UTF-8")
}

// Returns the usage fault of a value of `--host` that is no address.
fn no_address(alloc: Global, found: &ArgMatches) -> Result<Error, AllocError> {
    let host = found.get_str("host").unwrap_or("");
    let message = format!(in alloc;
        "invalid value '{host}' for '--host <ADDRESS>': neither an IP address nor localhost"
    )?;
    serve_fault(alloc, message.as_str())
}

// Returns the usage fault of a value of `--web-origin` that is no origin.
fn no_origin(alloc: Global, origin: &str) -> Result<Error, AllocError> {
    let message = format!(in alloc;
        "invalid value '{origin}' for '--web-origin <ORIGIN>': no origin, such as https://moo.example.org"
    )?;
    serve_fault(alloc, message.as_str())
}

// Returns a fault of the command line of `moo serve`, with its usage.
fn serve_fault(alloc: Global, message: &str) -> Result<Error, AllocError> {
    serve(alloc)?
        .bin_name("moo serve")?
        .error(ErrorKind::ValueValidation, message)
}

fn command<'a>(alloc: Global) -> Result<Command<'a>, AllocError> {
    let expr = Command::new(alloc, "expr").about("Evaluate the expression on standard input");
    Command::new(alloc, "moo")
        .about("A LambdaMOO server with crash-safe checkpoints")
        .version(VERSION)
        .subcommand_required(true)
        .arg_required_else_help(true)
        .disable_help_subcommand(true)
        .subcommand(expr)?
        .subcommand(check(alloc)?)?
        .subcommand(over_database(alloc, "copy", "Print a database in its canonical form")?)?
        .subcommand(over_database(
            alloc,
            "script",
            "Run the events on standard input over a database in memory",
        )?)?
        .subcommand(serve(alloc)?)
}

fn over_database<'a>(
    alloc: Global,
    name: &'a str,
    about: &'a str,
) -> Result<Command<'a>, AllocError> {
    let database = Arg::new(alloc, "DB")
        .help("The database file")
        .required(true);
    Command::new(alloc, name).about(about).arg(database)
}

fn check<'a>(alloc: Global) -> Result<Command<'a>, AllocError> {
    let all = Arg::new(alloc, "all")
        .long("all")
        .action(ArgAction::SetTrue)
        .help("Report every program that is refused, not the first alone");
    over_database(alloc, "check", "Report what a database holds")?.arg(all)
}

fn serve<'a>(alloc: Global) -> Result<Command<'a>, AllocError> {
    let port = Arg::new(alloc, "PORT")
        .help("The port, or 0 for any that is free")
        .required(true)
        .value_parser(value_parser!(u16));
    let host = Arg::new(alloc, "host")
        .long("host")
        .value_name("ADDRESS")
        .help("The address to listen on: a number, or localhost")
        .default_value(HOST);
    let rounds = Arg::new(alloc, "rounds")
        .long("rounds")
        .value_name("N")
        .help(
            "The most rounds of reading and writing, after which the server ends without a last checkpoint",
        )
        .value_parser(value_parser!(u64))
        .default_value(ROUNDS);
    let most_waiting = Arg::new(alloc, "most-waiting")
        .long("most-waiting")
        .value_name("BYTES")
        .help("A connection for which more bytes wait is hung up")
        .value_parser(value_parser!(usize))
        .default_value(MOST_WAITING);
    over_database(alloc, "serve", "Serve a database to connections")?
        .arg(port)?
        .arg(host)?
        .arg(web(alloc))?
        .arg(web_origin(alloc)?)?
        .arg(rounds)?
        .arg(most_waiting)?
        .arg(login_seconds(alloc))?
        .arg(most_unconnected(alloc))?
        .arg(idle_seconds(alloc))?
        .arg(console(alloc))?
        .arg(telnet(alloc))?
        .arg(must_save(alloc))?
        .arg(log_logins(alloc))?
        .arg(log_times(alloc))
}

fn web<'a>(alloc: Global) -> Arg<'a> {
    Arg::new(alloc, "web")
        .long("web")
        .value_name("PORT")
        .help("Serve a page for browsers at this port too, or 0 for any that is free")
        .value_parser(value_parser!(u16))
}

fn web_origin<'a>(alloc: Global) -> Result<Arg<'a>, AllocError> {
    Arg::new(alloc, "web-origin")
        .long("web-origin")
        .value_name("ORIGIN")
        .action(ArgAction::Append)
        .help("An origin of pages that may connect, such as https://moo.example.org")
        .requires_arg("web")
}

fn login_seconds<'a>(alloc: Global) -> Arg<'a> {
    Arg::new(alloc, "login-seconds")
        .long("login-seconds")
        .value_name("N")
        .help("A connection on which nobody logs in within N seconds is hung up; 0 for no limit")
        .value_parser(value_parser!(u64))
        .default_value("0")
}

fn most_unconnected<'a>(alloc: Global) -> Arg<'a> {
    Arg::new(alloc, "most-unconnected")
        .long("most-unconnected")
        .value_name("N")
        .help(
            "The most connections on which nobody has logged in; the oldest is hung up; 0 for no limit",
        )
        .value_parser(value_parser!(usize))
        .default_value("0")
}

fn idle_seconds<'a>(alloc: Global) -> Arg<'a> {
    Arg::new(alloc, "idle-seconds")
        .long("idle-seconds")
        .value_name("N")
        .help(
            "A connection that has sent nothing for more than N seconds is hung up; 0 for no limit",
        )
        .value_parser(value_parser!(u64))
        .default_value("0")
}

fn console<'a>(alloc: Global) -> Arg<'a> {
    Arg::new(alloc, "console")
        .long("console")
        .action(ArgAction::SetTrue)
        .help("Take standard input and output as the operator's own connection, of number 65535")
}

fn telnet<'a>(alloc: Global) -> Arg<'a> {
    Arg::new(alloc, "telnet")
        .long("telnet")
        .action(ArgAction::SetTrue)
        .help("Drop the commands of telnet from what clients send")
}

fn must_save<'a>(alloc: Global) -> Arg<'a> {
    Arg::new(alloc, "must-save")
        .long("must-save")
        .action(ArgAction::SetTrue)
        .help("End with status 3 if the server ends without a last checkpoint")
}

fn log_logins<'a>(alloc: Global) -> Arg<'a> {
    Arg::new(alloc, "log-logins")
        .long("log-logins")
        .value_name("N")
        .help(
            "Log logins and departures, and lines that log nobody in, at most N of each in a second; 0 for none",
        )
        .value_parser(value_parser!(u64))
        .default_value("0")
}

fn log_times<'a>(alloc: Global) -> Arg<'a> {
    Arg::new(alloc, "log-times")
        .long("log-times")
        .value_name("ZONE")
        .help("The time before each line of the log")
        .value_parser(ValueParser::Names(TIMES))
        .default_value("none")
}
