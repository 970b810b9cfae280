//! Reads lines that raise the next backend number.
ghost use Rattle.std.specs.Prelude.{◌≡◌, ◌≤◌, ◌+◌, ◌-◌, ◌*◌, ◌^◌, ◌∷◌, [], take, drop, nat_lt, if◌then◌else◌, IfSome, IfNone, Some, None};
ghost use Rattle.std.specs.List.{list_all};
ghost use Rattle.std.specs.Char.{is_ascii_digit};
ghost use Rattle.kept_store.specs.Numbers.{is_marked, number_after, are_digits, number_of, number_in};

/// A line that raises the next number begins so, and no request does.
const MARK: &[u8] = b"number ";

/// The most digits that a number has.
const DIGITS: usize = 20;

// The first bytes of a line.
fn front(line: &[u8]) -> &[u8]
    ensures { result.now ≡ take 7 line.now }
{
    &line[..line.len().min(7)]
}

// The bytes behind the mark.
fn back(line: &[u8]) -> &[u8]
    ensures { result.now ≡ drop 7 line.now }
{
    &line[line.len().min(7)..]
}

/// Whether a line begins by the mark.
pub(crate) fn is_marked(line: &[u8]) -> bool
    ensures { result ≡ is_marked line.now }
{
    front(line) == MARK
}

// Whether all bytes of a text are digits.
fn has_digits(text: &[u8]) -> bool
    ensures { result ≡ list_all is_ascii_digit text.now }
{
    text.iter().all(|byte| byte.is_ascii_digit())
}

// Whether a text is 1 to 20 digits.
fn are_digits(text: &[u8]) -> bool
    ensures { result ≡ are_digits text.now }
{
    let has_one = !text.is_empty();
    let has_few = text.len() <= DIGITS;
    has_one && has_few && has_digits(text)
}

// The number that one digit more makes of another, where it is below 2^64.
fn longer(number: u64, digit: u8) -> Option<u64>
    ensures some { IfSome result (λ longer. longer ≡ number * 10 + (digit - 48)) }
    ensures none { IfNone result (2 ^ 64 ≤ number * 10 + (digit - 48)) }
{
    let tens = number.checked_mul(10)?;
    tens.checked_add(u64::from(digit.saturating_sub(b'0')))
}

// The first digit, and what follows it.
fn cut_digit(digits: &[u8]) -> Option<(u8, &[u8])>
    ensures some { IfSome result (λ cut. digits.now ≡ cut.0 ∷ cut.1.now) }
    ensures none { IfNone result (digits.now ≡ []) }
{
    match digits {
        [digit, later @ ..] => Some((*digit, later)),
        [] => None,
    }
}

// The number that digits write, where it is below 2^64.
fn value(digits: &[u8]) -> Option<u64>
    ensures some { IfSome result (λ number. number ≡ number_after 0 digits.now) }
    ensures none { IfNone result (2 ^ 64 ≤ number_after 0 digits.now) }
{
    let mut rest = digits;
    let mut number = 0u64;
    'reading: while let Some((digit, later)) = cut_digit(rest) {
        number = longer(number, digit)?;
        rest = later;
    }
    Some(number)
}

/// The number that a text writes.
pub(crate) fn number_of(text: &[u8]) -> Option<u64>
    ensures { result ≡ number_of text.now }
{
    if !are_digits(text) {
        return None;
    }
    value(text)
}

/// The number in a line that raises the next one.
pub(crate) fn number_in(line: &[u8]) -> Option<u64>
    ensures { result ≡ number_in line.now }
{
    if !is_marked(line) {
        return None;
    }
    number_of(back(line))
}
