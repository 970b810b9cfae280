//! Digits and forms of texts.
ghost use Rattle.std.specs.Prelude.{◌≡◌, ◌≤◌, ◌<◌, ◌+◌, ◌*◌, ◌^◌, length};
ghost use Rattle.std.specs.List.{prefix_len};
ghost use Rattle.meta_types.specs.Text.{is_digit};
ghost use Rattle.meta_types.specs.Time.{number_from, number_at, has_form};

fn is_digit(byte: u8) -> bool
    ensures { result ≡ is_digit byte }
{
    48 <= byte && byte <= 57
}

/// The number that at most nine digits write.
pub(crate) fn number(digits: &[u8]) -> u64
    requires { length digits.now ≤ 9 }
    ensures value { result ≡ number_from 0 digits.now }
    ensures bound { result < 23000000000 }
    ensures scale { result ≤ 23 * 10 ^ length digits.now }
{
    let mut number = 0u64;
    for digit in digits {
        number = number * 10 + u64::from(digit.saturating_sub(48));
    }
    number
}

/// The number in the `count` digits from a place on.
pub(crate) fn number_at(text: &[u8], at: usize, count: usize) -> u64
    requires { (at + count ≤ length text.now) × (count ≤ 9) }
    ensures value { result ≡ number_at text.now at count }
    ensures bound { result < 23000000000 }
{
    number(&text[at..at + count])
}

/// Whether a text has a form: a digit for each `0`, and otherwise the form's bytes.
pub(crate) fn has_form(form: &[u8], text: &[u8]) -> bool
    ensures { result ≡ has_form form.now text.now }
{
    match form {
        [] => text.is_empty(),
        [sign, form @ ..] => match text {
            [] => false,
            [byte, text @ ..] => {
                (if *sign == 48 {
                    is_digit(*byte)
                } else {
                    *byte == *sign
                }) && has_form(form, text)
            }
        },
    }
}

/// How many digits a text begins with.
pub(crate) fn digits_in_front(text: &[u8]) -> usize
    ensures value { result ≡ prefix_len is_digit text.now }
    ensures bound { result ≤ length text.now }
{
    text.iter().take_while(|byte| is_digit(**byte)).count()
}
