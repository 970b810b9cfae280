//! The day number of a date.
ghost use Rattle.std.specs.Prelude.{◌≡◌};
ghost use Rattle.gc_labels.specs.Dates.{day_in};

use jiff::civil::Date;

/// The day number of a date, 0 for 1970-01-01, where there is such a date.
pub(crate) fn day_number(year: u64, month: u64, day: u64) -> Option<i32>
    ensures { result ≡ day_in year month day }
{
    if 9998 < year || 12 < month || 31 < day {
        return None;
    }
    match Date::new(year as i16, month as i8, day as i8) {
        Ok(date) => Some(date.to_plain().to_unix_epoch_day()),
        Err(_) => None,
    }
}
