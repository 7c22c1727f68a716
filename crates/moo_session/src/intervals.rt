//! How long it is from one checkpoint to the next.
ghost use Rattle.std.specs.Prelude.{◌≡◌};
ghost use Rattle.moo_session.specs.Interval.{interval};

use moo_value::Value;
use moo_world::World;

/// Returns the seconds from the beginning of a checkpoint to that of the next. They are the value of `#0.dump_interval`
/// if that is an integer of at least 60, else 3,600.
pub fn interval(world: &World) -> u32
    ensures { result ≡ interval world.now }
{
    match world.property_value(0, b"dump_interval") {
        Some(Value::Int(seconds)) if *seconds >= 60 => seconds.unsigned_abs(),
        _ => 3600,
    }
}
