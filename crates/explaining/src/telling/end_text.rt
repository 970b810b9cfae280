//! An end as a text in UTC.
ghost use Rattle.std.specs.Prelude.{◌≡◌, ◌≤◌, ◌<◌, ◌+◌, ◌*◌, ◌^◌, ◌++◌, ◌∷◌, [], string_bytes, None, IfOk, OnOk};
ghost use Rattle.meta_types.specs.Faults.{Refuses};
ghost use Rattle.meta_types.specs.Time.{is_leap, days_in, days_before, days_to_year};
ghost use Rattle.meta_types.specs.EndTexts.{digits_of, digits_to, year_of, month_of, date_of, clock_of, fraction_text, since_year_0, end_text};

use meta_types::{Fault, Instant, RawText};
use std::alloc::Global;

// Nanoseconds from 0000-01-01T00:00:00Z to 1970-01-01T00:00:00Z.
const EPOCH: u128 = 62167219200000000000;

fn push_digit(text: &mut String, digit: u8) -> Result<(), Fault>
    requires { digit < 128 }
    ensures fault { Refuses result None }
    ensures ok { OnOk result (string_bytes text.new ≡ string_bytes text.old ++ digit ∷ []) }
{
    text.push(char::from(digit))?;
    Ok(())
}

// Adds the last digits of a number, as many as the count says.
fn push_digits(text: &mut String, count: u32, number: u128) -> Result<(), Fault>
    ensures fault { Refuses result None }
    ensures ok { OnOk result (string_bytes text.new
        ≡ string_bytes text.old ++ digits_of count number) }
{
    if count == 0 {
        return Ok(());
    }
    push_digits(text, count - 1, number / 10)?;
    push_digit(text, (48 + number % 10) as u8)?;
    Ok(())
}

// Adds the same without zeros at the end.
fn push_digits_to(text: &mut String, count: u32, number: u128) -> Result<(), Fault>
    ensures fault { Refuses result None }
    ensures ok { OnOk result (string_bytes text.new
        ≡ string_bytes text.old ++ digits_to count number) }
{
    if count == 0 {
        return Ok(());
    }
    if number % 10 == 0 {
        push_digits_to(text, count - 1, number / 10)?;
        return Ok(());
    }
    push_digits(text, count, number)?;
    Ok(())
}

fn is_leap(year: u128) -> bool
    ensures { result ≡ is_leap year }
{
    year % 4 == 0 && (year % 100 != 0 || year % 400 == 0)
}

fn days_in(year: u128, month: u32) -> u128
    ensures days { result ≡ days_in year month }
    ensures bound { result ≤ 31 }
{
    if month == 2 {
        return if is_leap(year) { 29 } else { 28 };
    }
    if month == 4 || month == 6 || month == 9 || month == 11 {
        30
    } else {
        31
    }
}

// The days of a year before a month.
fn days_before(year: u128, month: u32) -> u128
    requires { month ≤ 13 }
    ensures days { result ≡ days_before year month }
    ensures bound { result ≤ 31 * month }
{
    if month <= 1 {
        return 0;
    }
    days_before(year, month - 1) + days_in(year, month - 1)
}

// The days before a year.
fn days_to_year(year: u128) -> u128
    requires { year ≤ 10 ^ 30 }
    ensures days { result ≡ days_to_year year }
    ensures bound { result ≤ 366 * year + 1 }
{
    365 * year + (year + 3) / 4 - (year + 99) / 100 + (year + 399) / 400
}

fn year_of(day: u128) -> u128
    requires { day ≤ 10 ^ 25 }
    ensures year { result ≡ year_of day }
    ensures bound { result ≤ 10 ^ 25 }
{
    let year = day * 400 / 146097;
    if days_to_year(year + 1) <= day {
        return year + 1;
    }
    if day < days_to_year(year) {
        return year.saturating_sub(1);
    }
    year
}

// Of the months after January, as many as the count says, the last that has begun.
fn month_of(year: u128, day: u128, count: u32) -> u32
    requires { count ≤ 11 }
    ensures month { result ≡ month_of year day count }
    ensures bound { result ≤ count + 1 }
{
    if count == 0 {
        return 1;
    }
    if days_before(year, count + 1) <= day {
        return count + 1;
    }
    month_of(year, day, count - 1)
}

fn push_date(text: &mut String, day: u128) -> Result<(), Fault>
    requires { day ≤ 10 ^ 25 }
    ensures fault { Refuses result None }
    ensures ok { OnOk result (string_bytes text.new ≡ string_bytes text.old ++ date_of day) }
{
    let year = year_of(day);
    let rest = day.saturating_sub(days_to_year(year));
    let month = month_of(year, rest, 11);
    push_digits(text, 4, year)?;
    push_digit(text, b'-')?;
    push_digits(text, 2, u128::from(month))?;
    push_digit(text, b'-')?;
    push_digits(text, 2, rest.saturating_sub(days_before(year, month)) + 1)?;
    Ok(())
}

fn push_clock(text: &mut String, second: u128) -> Result<(), Fault>
    ensures fault { Refuses result None }
    ensures ok { OnOk result (string_bytes text.new ≡ string_bytes text.old ++ clock_of second) }
{
    push_digits(text, 2, second / 3600)?;
    push_digit(text, b':')?;
    push_digits(text, 2, second / 60 % 60)?;
    push_digit(text, b':')?;
    push_digits(text, 2, second % 60)?;
    Ok(())
}

fn push_fraction(text: &mut String, nanosecond: u128) -> Result<(), Fault>
    ensures fault { Refuses result None }
    ensures ok { OnOk result (string_bytes text.new
        ≡ string_bytes text.old ++ fraction_text nanosecond) }
{
    if nanosecond == 0 {
        return Ok(());
    }
    push_digit(text, b'.')?;
    push_digits_to(text, 9, nanosecond)?;
    Ok(())
}

// Nanoseconds since 0000-01-01T00:00:00Z, and none for an end before.
fn since_year_0(end: i128) -> u128
    ensures nanoseconds { result ≡ since_year_0 end }
    ensures bound { result ≤ 2 ^ 127 + 62167219200000000000 }
{
    if end < 0 {
        return EPOCH.saturating_sub(end.unsigned_abs());
    }
    EPOCH + end.unsigned_abs()
}

/// An end in UTC: `YYYY-MM-DDThh:mm:ss`, a fraction where it isn't 0, and `Z` (RFC 3339, 5.6).
pub(crate) fn end_text(alloc: Global, end: Instant) -> Result<RawText<'static>, Fault>
    ensures fault { Refuses result None }
    ensures ok { IfOk result (λ text. text ≡ end_text end.0) }
{
    let nanoseconds = since_year_0(end.0);
    let mut text = String::new(alloc);
    push_date(&mut text, nanoseconds / 86400000000000)?;
    push_digit(&mut text, b'T')?;
    push_clock(&mut text, nanoseconds / 1000000000 % 86400)?;
    push_fraction(&mut text, nanoseconds % 1000000000)?;
    push_digit(&mut text, b'Z')?;
    Ok(RawText::new(text))
}
