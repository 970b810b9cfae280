//! Hexadecimal digits, read and written.
ghost use Rattle.std.specs.Prelude.{◌≡◌, ◌++◌, ◌+◌, ◌*◌, ◌<◌, ◌&&◌, nat_lt, List, ℕ, true, length, take, slice_index, bytes_eq};
ghost use Rattle.std.specs.Ordering.{nat_cmp};
ghost use Rattle.std.specs.Cmp.Lexicographic.{slice_cmp};
ghost use Rattle.std.specs.List.{list_all};
ghost use Rattle.meta_types.specs.Text.{is_hexadecimal};
ghost use Rattle.meta_types.specs.Digits.{value_of};
ghost use Rattle.hex.specs.Hex.{encode_lower, lower_digits, IsBytes};

use std::cmp::Ordering;

// The value of a digit, and 255 of what is none.
fn value(digit: u8) -> u8
    ensures { result ≡ value_of digit }
{
    if 48 <= digit && digit <= 57 {
        digit - 48
    } else if 97 <= digit && digit <= 102 {
        digit - 87
    } else {
        255
    }
}

fn greater(a: u8, b: u8) -> u8
    ensures { nat_lt result 16 ≡ (nat_lt a 16 && nat_lt b 16) }
{
    if a < b { b } else { a }
}

/// Whether all are digits. It takes the same time whatever they are.
pub(crate) fn are_hexadecimal(bytes: &[u8]) -> bool
    ensures { result ≡ list_all is_hexadecimal bytes.now }
{
    let mut greatest = 0u8;
    for byte in bytes {
        greatest = greater(greatest, value(*byte));
    }
    greatest < 16
}

fn pair(high: u8, low: u8) -> u8
    requires high { is_hexadecimal high ≡ true }
    requires low { is_hexadecimal low ≡ true }
    ensures { result ≡ value_of high * 16 + value_of low }
{
    value(high) * 16 + value(low)
}

// Reads two digits for each byte.
fn read_digits(digits: &[u8], bytes: &mut [u8])
    requires length { length digits.now ≡ 2 * length bytes.old }
    requires digits { list_all is_hexadecimal digits.now ≡ true }
    ensures text { encode_lower bytes.new ≡ digits.now }
    ensures bytes { IsBytes bytes.new }
    ensures length { length bytes.new ≡ length bytes.old }
{
    for i in 0..bytes.len() {
        bytes[i] = pair(digits[2 * i], digits[2 * i + 1]);
    }
}

/// The 32 bytes of 64 digits.
pub(crate) fn short_of(digits: &[u8]) -> [u8; 32]
    requires length { length digits.now ≡ 64 }
    requires digits { list_all is_hexadecimal digits.now ≡ true }
    ensures text { encode_lower result ≡ digits.now }
    ensures bytes { IsBytes result }
    ensures length { length result ≡ 32 }
{
    let mut bytes = [0u8; 32];
    read_digits(digits, &mut bytes);
    bytes
}

/// The 64 bytes of 128 digits.
pub(crate) fn long_of(digits: &[u8]) -> [u8; 64]
    requires length { length digits.now ≡ 128 }
    requires digits { list_all is_hexadecimal digits.now ≡ true }
    ensures text { encode_lower result ≡ digits.now }
    ensures bytes { IsBytes result }
    ensures length { length result ≡ 64 }
{
    let mut bytes = [0u8; 64];
    read_digits(digits, &mut bytes);
    bytes
}

// The digit of a value.
fn digit(value: u8) -> u8
    requires { value < 16 }
    ensures { result ≡ slice_index lower_digits value }
{
    if value < 10 { value + 48 } else { value + 87 }
}

/// Writes the two digits of each byte, from this place on.
pub(crate) fn write_digits(bytes: &[u8], out: &mut [u8], from: usize)
    requires { length out.old ≡ from + 2 * length bytes.now }
    ensures { out.new ≡ take from out.old ++ encode_lower bytes.now }
{
    for i in 0..bytes.len() {
        out[from + 2 * i] = digit(bytes[i] / 16);
        out[from + 2 * i + 1] = digit(bytes[i] % 16);
    }
}

/// How the texts of some bytes stand, behind the same front.
pub(crate) fn order(a: &[u8], b: &[u8]) -> Ordering
    requires a { IsBytes a.now }
    requires b { IsBytes b.now }
    ensures { (front : List ℕ) → result ≡ slice_cmp nat_cmp (front ++ encode_lower a.now)
        (front ++ encode_lower b.now) }
{
    a.cmp(b)
}

/// Whether the texts of some bytes are equal, behind the same front.
pub(crate) fn are_equal(a: &[u8], b: &[u8]) -> bool
    requires a { IsBytes a.now }
    requires b { IsBytes b.now }
    ensures { (front : List ℕ) → result ≡ bytes_eq (front ++ encode_lower a.now)
        (front ++ encode_lower b.now) }
{
    a == b
}
