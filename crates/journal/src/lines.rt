//! Where a line ends, and what a line is.
ghost use Rattle.std.specs.Prelude.{◌≡◌, ◌++◌, ◌∷◌, [], IfSome, IfNone, false, true, position, bytes_eq, drop, ◌&&◌, not};
ghost use Rattle.std.specs.List.{list_any};
ghost use Rattle.journal.specs.Text.{is_line_feed, is_torn, is_commit, has_noise, commit_of, place_text, IsLine};
ghost use Rattle.journal.specs.Reading.{stands, is_overlong};

use crate::sum::place_of;

// Where the first line feed stands.
fn find_line_feed(bytes: &[u8]) -> Option<usize>
    ensures { result ≡ position is_line_feed bytes.now }
{
    bytes.iter().position(|b| *b == b'\n')
}

/// What stands before the first line feed, and what follows it.
pub fn cut_line(bytes: &[u8]) -> Option<(&[u8], &[u8])>
    ensures some { IfSome result (λ cut. (bytes.now ≡ cut.0.now ++ 10 ∷ cut.1.now)
        × (list_any is_line_feed cut.0.now ≡ false)) }
    ensures none { IfNone result (list_any is_line_feed bytes.now ≡ false) }
{
    let at = find_line_feed(bytes)?;
    Some((&bytes[..at], &bytes[at + 1..]))
}

/// Whether a line commits a group.
pub fn is_commit(line: &[u8]) -> bool
    ensures { result ≡ is_commit line.now }
{
    match line {
        [first, ..] => *first == b'#',
        _ => false,
    }
}

// Whether a line feed stands in a text.
fn has_line_feed(text: &[u8]) -> bool
    ensures { result ≡ list_any is_line_feed text.now }
{
    text.iter().any(|b| *b == b'\n')
}

/// Whether a byte of a text isn't there.
pub fn is_torn(text: &[u8]) -> bool
    ensures { result ≡ is_torn text.now }
{
    text.iter().any(|b| *b == 0)
}

/// Whether a byte stands in a text that no UTF-8 text has.
pub fn has_noise(text: &[u8]) -> bool
    ensures { result ≡ has_noise text.now }
{
    text.iter().any(|b| *b > 244)
}

/// Whether a line can stand in a group.
pub fn is_line(line: &[u8]) -> bool
    ensures { result ≡ true → IsLine line.now }
{
    !has_line_feed(line) && !is_torn(line) && !is_commit(line) && !has_noise(line)
}

// Whether a text is a place.
fn is_place(text: &[u8], place: usize) -> bool
    ensures { result ≡ bytes_eq text.now (place_text place) }
{
    let digits = place_of(place);
    match text {
        [blank, rest @ ..] => *blank == b' ' && rest == digits.as_slice(),
        _ => false,
    }
}

// Whether a text is a sum and a place.
fn is_sum_and_place(text: &[u8], sum: &[u8; 64], place: usize) -> bool
    ensures { result ≡ bytes_eq text.now (sum.now ++ place_text place) }
{
    if text.len() < 64 {
        return false;
    }
    let is_sum = &text[..64] == sum.as_slice();
    let is_place = is_place(&text[64..], place);
    is_sum & is_place
}

/// Whether a line is the commit line with this sum of the group that begins at a place.
pub fn is_commit_of(line: &[u8], sum: &[u8; 64], place: usize) -> bool
    ensures { result ≡ bytes_eq line.now (commit_of sum.now place) }
{
    match line {
        [mark, rest @ ..] => *mark == b'#' && is_sum_and_place(rest, sum, place),
        _ => false,
    }
}

// Whether the place in a commit line is this.
fn names(line: &[u8], place: usize) -> bool
    ensures { result ≡ bytes_eq (drop 65 line.now) (place_text place) }
{
    if line.len() < 65 {
        return false;
    }
    is_place(&line[65..], place)
}

/// Whether a line commits a group that begins elsewhere.
pub fn is_elsewhere(place: usize, line: &[u8]) -> bool
    ensures { result ≡ (is_commit line.now && not
        (bytes_eq (drop 65 line.now) (place_text place))) }
{
    is_commit(line) && !names(line, place)
}

// Whether a text begins by the length of a commit line and one byte more.
fn stands(piece: &[u8]) -> bool
    ensures { result ≡ stands 83 piece.now }
{
    if piece.len() < 83 {
        return false;
    }
    !is_torn(&piece[..83])
}

/// Whether a commit line goes on where it has to end.
pub fn is_overlong(piece: &[u8]) -> bool
    ensures { result ≡ is_overlong piece.now }
{
    is_commit(piece) && stands(piece)
}
