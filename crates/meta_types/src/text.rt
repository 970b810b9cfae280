//! Tests of texts, exactly those of the definitions.
ghost use Rattle.std.specs.Prelude.{◌≡◌};
ghost use Rattle.std.specs.List.{list_all};
ghost use Rattle.meta_types.specs.Text.{is_digit, is_letter_or_digit, is_short_name_byte, is_short_name, is_printed, is_name, is_hash};

use crate::digits::are_hexadecimal;

fn is_digit(byte: u8) -> bool
    ensures { result ≡ is_digit byte }
{
    48 <= byte && byte <= 57
}

fn is_letter_or_digit(byte: u8) -> bool
    ensures { result ≡ is_letter_or_digit byte }
{
    is_digit(byte) || (97 <= byte && byte <= 122) || (65 <= byte && byte <= 90)
}

fn is_short_name_byte(byte: u8) -> bool
    ensures { result ≡ is_short_name_byte byte }
{
    is_letter_or_digit(byte) || byte == 46 || byte == 95 || byte == 45
}

fn are_short_name_bytes(bytes: &[u8]) -> bool
    ensures { result ≡ list_all is_short_name_byte bytes.now }
{
    bytes.iter().all(|byte| is_short_name_byte(*byte))
}

/// Whether a text names a namespace or a snapshotter.
pub(crate) fn is_short_name(text: &str) -> bool
    ensures { result ≡ is_short_name text.now }
{
    match text.as_bytes().split_first() {
        None => false,
        Some((first, rest)) => {
            is_letter_or_digit(*first) && are_short_name_bytes(rest) && rest.len() <= 75
        }
    }
}

fn is_printed(byte: u8) -> bool
    ensures { result ≡ is_printed byte }
{
    32 <= byte && !(byte == 127)
}

fn are_printed(bytes: &[u8]) -> bool
    ensures { result ≡ list_all is_printed bytes.now }
{
    bytes.iter().all(|byte| is_printed(*byte))
}

/// Whether a text is another name.
pub(crate) fn is_name(text: &str) -> bool
    ensures { result ≡ is_name text.now }
{
    let bytes = text.as_bytes();
    1 <= bytes.len() && bytes.len() <= 1024 && are_printed(bytes)
}

/// Whether a text is this algorithm and that number of digits.
pub(crate) fn is_hash(text: &[u8], prefix: &[u8], digits: usize) -> bool
    ensures { result ≡ is_hash prefix.now digits text.now }
{
    if !text.starts_with(prefix) {
        return false;
    }
    let rest = &text[prefix.len()..];
    rest.len() == digits && are_hexadecimal(rest)
}
