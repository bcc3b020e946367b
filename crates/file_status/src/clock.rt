// The clock that counts from some moment in the past and is never set back.
use std::io;
use std::rt::Clock;

// The whole seconds of that clock.
pub fn monotonic_seconds(clock: &impl Clock) -> io::Result<u64> {
    Ok(clock.monotonic()?.as_secs())
}
