//! Which of two files counts, and the bytes that say so.
ghost use Rattle.std.specs.Prelude.{◌≡◌, ◌==◌, ◌&&◌, Bool, true, false, slice_index};
ghost use Rattle.journal.specs.Selector.{selector_bytes, is_most, tail_counts};

/// Which of two files counts, as the first one's head says.
pub trait Selector {
    ghost IS_STANDBY: { Bool };

    const IS_STANDBY: bool;
}

/// The file itself counts.
pub struct Active;

impl Selector for Active {
    ghost IS_STANDBY = { false };

    const IS_STANDBY: bool = false;
}

/// The other file counts in its place.
pub struct Standby;

impl Selector for Standby {
    ghost IS_STANDBY = { true };

    const IS_STANDBY: bool = true;
}

/// What the end of a head says.
#[derive(Clone, Copy)]
pub struct Said {
    pub is_standby: bool,
    /// The head's last byte is there.
    pub is_ended: bool,
}

/// The bytes of a selector.
pub fn selector_bytes(is_standby: bool) -> [u8; 3]
    ensures { result ≡ selector_bytes is_standby }
{
    if is_standby {
        return [b'+'; 3];
    }
    [0; 3]
}

// Whether two of three bytes are there at least.
fn is_most(one: u8, two: u8, three: u8) -> bool
    ensures { result ≡ is_most one two three }
{
    let first = one == b'+';
    let second = two == b'+';
    let third = three == b'+';
    if first {
        return second | third;
    }
    second & third
}

/// What the last five bytes of a head say.
pub fn judge(tail: &[u8; 5]) -> Said
    ensures other { result.is_standby ≡ tail_counts tail.now }
    ensures ended { result.is_ended ≡ (slice_index tail.now 4 == 10) }
{
    let is_ended = tail[4] == b'\n';
    let is_standby = is_ended & is_most(tail[0], tail[1], tail[2]);
    Said {
        is_standby,
        is_ended,
    }
}

/// Whether two answers are the same.
pub fn is_alike(one: bool, other: bool) -> bool
    ensures { result ≡ true → one ≡ other }
{
    one == other
}
