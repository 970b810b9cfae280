//! Moments, read from texts of RFC 3339.
ghost use Rattle.std.specs.Prelude.{◌≡◌, ◌≤◌, ◌<◌, length, option_map, IfSome, FitsSigned, pos, ◌+ℤ◌, ◌-ℤ◌, ◌*ℤ◌};
ghost use Rattle.meta_types.specs.Time.{number_at, fraction_in, zone_in, has_fraction, fraction_of, offset_of, instant_of};
ghost use Rattle.std.specs.Int.{w128};
ghost use Rattle.gc_labels.specs.Dates.{day_in, second_in, place_in};

use crate::dates::day_number;
use crate::digits::{digits_in_front, has_form, number, number_at};
use meta_types::Instant;

/// The moment that a text names (RFC 3339, 5.6, in the years 0000 to 9998). A day can be added to
/// it.
pub fn read_instant(text: &str) -> Option<Instant>
    ensures moment { option_map (λ instant. instant.0) result ≡ instant_of text.now }
    ensures wide { IfSome result (λ instant.
        FitsSigned w128 (instant.0 +ℤ pos 86400000000000)) }
{
    let bytes = text.as_bytes();
    let (day, nanosecond) = place_in(bytes)?;
    let offset = offset_of(zone_in(&bytes[19..]))?;
    Some(Instant(moment(day, nanosecond, offset)))
}

// The moment at a nanosecond of a day, where clocks are ahead by the offset.
fn moment(day: i32, nanosecond: u64, offset: i64) -> i128
    ensures moment { result ≡ (day *ℤ pos 86400000000000) +ℤ pos nanosecond -ℤ offset }
    ensures wide { FitsSigned w128 (result +ℤ pos 86400000000000) }
{
    i128::from(day) * 86_400_000_000_000 + i128::from(nanosecond) - i128::from(offset)
}

// The day, and the nanosecond of that day, before the offset.
fn place_in(text: &[u8]) -> Option<(i32, u64)>
    ensures place { result ≡ place_in text.now }
    ensures long { IfSome result (λ _. 19 ≤ length text.now) }
{
    if text.len() < 19 || !has_form(b"0000-00-00T00:00:00", &text[..19]) {
        return None;
    }
    let day = day_in(text)?;
    let second = second_in(text)?;
    if !has_fraction(&text[19..]) {
        return None;
    }
    Some((
        day,
        second * 1_000_000_000 + fraction_of(fraction_in(&text[19..])),
    ))
}

fn day_in(text: &[u8]) -> Option<i32>
    requires { 19 ≤ length text.now }
    ensures { result
        ≡ day_in (number_at text.now 0 4) (number_at text.now 5 2) (number_at text.now 8 2) }
{
    day_number(
        number_at(text, 0, 4),
        number_at(text, 5, 2),
        number_at(text, 8, 2),
    )
}

fn second_in(text: &[u8]) -> Option<u64>
    requires { 19 ≤ length text.now }
    ensures value { result
        ≡ second_in (number_at text.now 11 2) (number_at text.now 14 2) (number_at text.now 17 2) }
    ensures bound { IfSome result (λ second. second < 86400) }
{
    let hour = number_at(text, 11, 2);
    let minute = number_at(text, 14, 2);
    let second = number_at(text, 17, 2);
    if hour <= 23 && minute <= 59 && second <= 59 {
        Some(hour * 3600 + minute * 60 + second)
    } else {
        None
    }
}

// The digits of a fraction; none where there is no fraction.
fn fraction_in(rest: &[u8]) -> &[u8]
    ensures { result.now ≡ fraction_in rest.now }
{
    match rest {
        [b'.', digits @ ..] => &digits[..digits_in_front(digits)],
        _ => &[],
    }
}

fn has_fraction(rest: &[u8]) -> bool
    ensures { result ≡ has_fraction rest.now }
{
    match rest {
        [b'.', ..] => {
            let count = fraction_in(rest).len();
            1 <= count && count <= 9
        }
        _ => true,
    }
}

fn zone_in(rest: &[u8]) -> &[u8]
    ensures { result.now ≡ zone_in rest.now }
{
    match rest {
        [b'.', behind @ ..] => &behind[digits_in_front(behind)..],
        _ => rest,
    }
}

// Nanoseconds of a fraction.
fn fraction_of(digits: &[u8]) -> u64
    requires { length digits.now ≤ 9 }
    ensures value { result ≡ fraction_of digits.now }
    ensures bound { result ≤ 23000000000 }
{
    number(digits) * 10u64.pow(9 - digits.len() as u32)
}

// The offset that a zone names, in nanoseconds.
fn offset_of(zone: &[u8]) -> Option<i64>
    ensures { result ≡ offset_of zone.now }
{
    if zone == b"Z".as_slice() {
        return Some(0);
    }
    if !(has_form(b"+00:00", zone) || has_form(b"-00:00", zone)) {
        return None;
    }
    let hour = number_at(zone, 1, 2);
    let minute = number_at(zone, 4, 2);
    if hour <= 23 && minute <= 59 {
        let size = ((hour * 3600 + minute * 60) * 1_000_000_000) as i64;
        Some(if zone[0] == b'+' { size } else { -size })
    } else {
        None
    }
}
