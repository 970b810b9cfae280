//! The clock of the machine.

use kept_store::Clock;
use std::time::SystemTime;

/// The machine's clock.
#[derive(Clone, Copy)]
pub struct HostClock {
    pub rt: HostRuntime,
}

impl Clock for HostClock {
    fn now(&self) -> Option<i128> {
        let Ok(moment) = SystemTime::now(&self.rt) else {
            return None;
        };
        let Ok(time) = moment.duration_since(SystemTime::UNIX_EPOCH) else {
            return None;
        };
        i128::try_from(time.as_nanos()).ok()
    }
}
