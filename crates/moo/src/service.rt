//! `moo serve`: the lock, the standard streams, and then the server.
use log::{Level, Log, Logged, warn};
use moo_cli_args::{Service, Times};
use moo_cli_file_disk::{Lock, LockFault};
use moo_cli_io::log_error;
use moo_cli_log::{LocalTime, LogTimes, TimedLog};
use moo_cli_serve::{Limits, LoginLimits, Served, Web, run_serve};
use moo_server::MooApplication;
use std::fs::File;
use std::io;
use std::os::fd::{AsFd, AsRawFd};

/// The highest descriptor of a standard stream.
const STANDARD: i32 = 2;

/// Serves a database, and returns the exit status. Fails if another server has the database, or if standard output is
/// closed.
pub fn serve(rt: &HostRuntime, service: Service) -> io::Result<u8> {
    let _streams = open_streams(rt)?;
    let times = times_of(rt, service.log_times)?;
    let logger = Logged::new(rt.clone()?, Level::Info, TimedLog::new(rt.clone()?, times));
    let _lock = take_lock(rt, &logger, service.database)?;
    let served = Served {
        db: service.database,
        host: service.host,
        port: service.port,
        web: service.web.map(|port| Web {
            port,
            origins: &service.web_origins,
        }),
        rounds: service.rounds,
        limits: Limits {
            most_waiting: service.most_waiting,
            login: LoginLimits {
                seconds: service.login_seconds,
                most: service.most_unconnected,
            },
            idle_seconds: service.idle_seconds,
        },
        has_console: service.console,
        login_lines: service.log_logins,
        has_telnet: service.telnet,
        must_save: service.must_save,
    };
    let files = rt.clone()?;
    let mut output = io::writer(rt);
    Ok(run_serve::<MooApplication, _, HostRuntime, _>(
        &logger,
        files,
        rt.alloc(),
        &mut output,
        served,
    ))
}

// Returns the times of the log. Fails if the zone of the machine can't be read.
fn times_of(rt: &HostRuntime, times: Times) -> io::Result<LogTimes> {
    match times {
        Times::None => Ok(LogTimes::None),
        Times::Utc => Ok(LogTimes::Utc),
        Times::Local => match LocalTime::read(rt) {
            Ok(local) => Ok(LogTimes::Local(local)),
            Err(error) => {
                warn!(rt; target: "moo::serve", "the time zone of the machine: {error}");
                Err(io::Error::from(io::ErrorKind::InvalidData))
            }
        },
    }
}

// Takes the lock on a database. Fails if another process has it. If the system can't lock it, the server runs without a
// lock, and the log says so.
fn take_lock<L: Log>(rt: &HostRuntime, logger: &L, path: &str) -> io::Result<Option<Lock>> {
    match Lock::take(rt.alloc(), rt, path) {
        Ok(lock) => Ok(Some(lock)),
        Err(LockFault::Held(name, holder)) => {
            report_held(logger, name.as_str(), holder);
            Err(io::Error::from(io::ErrorKind::ResourceBusy))
        }
        Err(LockFault::Failed(name, error)) => {
            warn!(logger; target: "moo::serve", "no lock keeps a second server from {path}: {}: {error}", name.as_str());
            Ok(None)
        }
        // The server finds this too, and says why it can't read the database.
        Err(LockFault::NoDatabase(_)) => Ok(None),
    }
}

fn report_held<L: Log>(logger: &L, name: &str, holder: Option<u32>) {
    match holder {
        Some(number) => {
            warn!(logger; target: "moo::serve", "{name}: process {number} serves this database");
        }
        None => warn!(logger; target: "moo::serve", "{name}: another process serves this database"),
    }
}

// Opens each standard stream that is closed on `/dev/null`, so that no file and no socket gets its descriptor, and no
// line of the log goes into one. Fails if standard output is closed, since nobody could read where the server listens.
fn open_streams(rt: &HostRuntime) -> io::Result<Vec<File>> {
    if let Err(error) = rt.stdout().as_fd().try_clone_to_owned() {
        log_error(rt, "standard output", &error);
        return Err(error);
    }
    let mut streams = Vec::new(rt.alloc());
    for _ in 0..=STANDARD {
        let file = File::options()
            .read(true)
            .write(true)
            .open(rt, "/dev/null")?;
        if file.as_raw_fd() <= STANDARD {
            streams.push(file)?;
        }
    }
    Ok(streams)
}
