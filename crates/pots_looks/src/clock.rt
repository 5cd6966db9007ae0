//! What the clock of the system says.

use std::time::SystemTime;

/// The seconds since 1970 by the clock of the system, and 0 where it has none.
pub fn now(rt: &HostRuntime) -> u64 {
    match SystemTime::now(rt) {
        Ok(time) => match time.duration_since(SystemTime::UNIX_EPOCH) {
            Ok(since) => since.as_secs(),
            Err(_) => 0,
        },
        Err(_) => 0,
    }
}
