//! Moments as texts that a request may have.
use jiff::civil::DateTime;
use meta_types::Instant;
use std::alloc::{AllocError, Global};

/// A moment that serves where none is kept.
pub(crate) const ANY_MOMENT: &str = "1970-01-01T00:00:00Z";

// A day in nanoseconds: an ingest ends a day after it began.
const DAY: i128 = 86_400_000_000_000;

// The largest offset of a clock, 23:59, in nanoseconds.
const OFFSET: i128 = 86_340_000_000_000;

// The first moment of the year 0000.
const YEAR_0000: i128 = -62_167_219_200_000_000_000;

// The first moment of the year 9999, which no text of a request may name.
const YEAR_9999: i128 = 253_370_764_800_000_000_000;

// What a clock shows at a moment, and its offset. A moment that was read may lie a day before the
// first year, or a day behind the last: a clock in another zone shows one of these years.
fn clock_at(moment: i128) -> (i128, &'static str) {
    if moment < YEAR_0000 {
        (moment + OFFSET, "+23:59")
    } else if YEAR_9999 <= moment {
        (moment - OFFSET, "-23:59")
    } else {
        (moment, "Z")
    }
}

/// The text of the moment at which an ingest with this end began.
pub(crate) fn began(alloc: Global, end: Instant) -> Result<String, AllocError> {
    let (shown, zone) = clock_at(end.0.saturating_sub(DAY));
    match jiff_core::civil::DateTime::from_nanosecond(shown) {
        Ok(clock) => {
            let clock = DateTime::from_plain(clock);
            format!(in alloc; "{clock}{zone}")
        }
        Err(_) => String::from_str(alloc, ANY_MOMENT),
    }
}
