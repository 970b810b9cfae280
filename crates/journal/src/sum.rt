//! The parts of a commit line.
ghost use Rattle.std.specs.Prelude.{◌≡◌, ◌++◌, ◌∷◌, [], List, ℕ};
ghost use Rattle.sha2.specs.Hashers.{Holds256};
ghost use Rattle.hex.specs.Hex.{encode_lower};
ghost use Rattle.journal.specs.Text.{sum_of, place_text};

use hex::encode_to_slice;
use sha2::{Digest, Sha256};

// A digest as digits.
fn digits_of(digest: &[u8; 32]) -> [u8; 64]
    ensures digits { result ≡ encode_lower digest.now }
{
    let mut digits = [0u8; 64];
    match encode_to_slice(digest.as_slice(), &mut digits) {
        Ok(()) => digits,
        Err(_) => unreachable!(),
    }
}

/// The SHA-256 of two texts as one, as 64 digits.
#[tactic(auto, unfolding(crate::specs::Text::sum_of))]
pub fn sum_of(before: &[u8], text: &[u8]) -> [u8; 64]
    ensures sum { result ≡ sum_of (before.now ++ text.now) }
{
    let mut hasher = Sha256::new();
    hasher.update(before);
    hasher.update(text);
    let digest: [u8; 32] = hasher.finalize();
    digits_of(&digest)
}

/// A sum that goes on behind a text.
pub fn hasher_of(before: &[u8]) -> Sha256
    ensures { Holds256 result before.now }
{
    let mut hasher = Sha256::new();
    hasher.update(before);
    hasher
}

/// A sum goes on.
pub fn add_to(hasher: &mut Sha256, bytes: &[u8])
    ensures { (m : List ℕ) → Holds256 hasher.old m → Holds256 hasher.new (m ++ bytes.now) }
{
    hasher.update(bytes);
}

/// The sum, as 64 digits. The next begins with nothing.
#[tactic(auto, unfolding(crate::specs::Text::sum_of))]
pub fn take_sum(hasher: &mut Sha256) -> [u8; 64]
    ensures sum { (m : List ℕ) → Holds256 hasher.old m → result ≡ sum_of m }
    ensures empty { Holds256 hasher.new [] }
{
    let digest: [u8; 32] = hasher.finalize_reset();
    digits_of(&digest)
}

// A number as digits.
fn digits_of_place(bytes: &[u8; 8]) -> [u8; 16]
    ensures digits { result ≡ encode_lower bytes.now }
{
    let mut digits = [0u8; 16];
    match encode_to_slice(bytes.as_slice(), &mut digits) {
        Ok(()) => digits,
        Err(_) => unreachable!(),
    }
}

/// A place in the file, as 16 digits. In a commit line a blank stands before them.
#[tactic(auto, unfolding(crate::specs::Text::place_text))]
pub fn place_of(place: usize) -> [u8; 16]
    ensures place { 32 ∷ result ≡ place_text place }
{
    let place = place as u64;
    digits_of_place(&place.to_be_bytes())
}

/// The SHA-256 of a text and of a number behind it, as 64 digits.
pub fn sum_of_place(before: &[u8], place: usize) -> [u8; 64]
    ensures { result ≡ sum_of (before.now ++ place_text place) }
{
    let digits = place_of(place);
    let mut hasher = hasher_of(before);
    add_to(&mut hasher, b" ");
    add_to(&mut hasher, &digits);
    take_sum(&mut hasher)
}
