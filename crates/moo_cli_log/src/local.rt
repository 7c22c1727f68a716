//! The time zone of the machine.
use arrayvec::ArrayString;
use jiff::tz::{SystemTimeZone, TimeZone, TimeZoneDatabase};
use jiff::{Error, Timestamp};
use std::alloc::AllocGlobal;
use std::env::Env;
use std::rt::Files;

/// Holds the time zone of the machine, as the program found it at the start.
#[derive(Drop)]
pub struct LocalTime {
    zone: SystemTimeZone,
    names: TimeZoneDatabase,
}

impl LocalTime {
    /// Reads `TZ` of the environment, and `/etc/localtime` if it isn't set. If `TZ` is the name of a zone, reads the Time Zone
    /// Database of the machine. Fails if the zone is unknown.
    pub fn read<R: Env + Files + AllocGlobal + Clone + Drop>(rt: &R) -> Result<LocalTime, Error> {
        let zone = SystemTimeZone::read(rt)?;
        let no_names = TimeZoneDatabase::new(rt.alloc());
        if zone.time_zone(&no_names).is_ok() {
            return Ok(LocalTime {
                zone,
                names: no_names,
            });
        }
        let names = TimeZoneDatabase::from_env(rt)?;
        let _ = zone.time_zone(&names)?;
        Ok(LocalTime { zone, names })
    }

    // Returns the zone.
    fn zone(&self) -> Result<TimeZone<'_>, Error> {
        self.zone.time_zone(&self.names)
    }

    /// Returns the text of a moment in this zone, as `2026-11-27T23:12:40+01:00`. Returns `None` if the zone is unknown.
    pub fn text(&self, moment: Timestamp) -> Option<ArrayString<38>> {
        let offset = self.zone().ok()?.to_offset(moment);
        Some(moment.display_with_offset(offset))
    }
}
