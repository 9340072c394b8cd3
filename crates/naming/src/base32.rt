// Hash parts: from a hash to its text and back. Texts and bytes are filled place by place: of the elements of `array::from_fn` a proof learns what a
// call gave, but not that the closure still held the same hash.
ghost use Rattle.std.specs.Prelude.{◌≡◌, ℕ, ◌<◌, List, Some, MatchOption, ◌≢◌};
ghost use Rattle.naming.specs.Hash.{Spelled, character, hash_part};

use crate::bits::window;
use crate::hash::Hash;

// The digits of base 32.
const ALPHABET: [u8; 32] = *b"0123456789abcdfghijklmnpqrsvwxyz";

// The digit that a byte stands for.
fn digit_of(byte: u8) -> Option<u8>
    ensures { MatchOption result ((d : ℕ) → d < 32 → character d ≢ byte) (λ d. (d < 32) × (character d ≡ byte)) }
{
    let digit = ALPHABET.iter().position(|character| *character == byte)?;
    Some(digit as u8)
}

// The digits of a text of 32 characters, the lowest first.
fn digits_of(text: &[u8]) -> Option<[u8; 32]>
    ensures { MatchOption result ((h : List ℕ) → hash_part h ≢ text.now) (λ ds. Spelled ds text.now) }
{
    if text.len() != 32 {
        return None;
    }
    let mut digits = [0; 32];
    for (place, digit) in digits.iter_mut().enumerate() {
        *digit = digit_of(text[31 - place])?;
    }
    Some(digits)
}

impl Hash {
    // The hash part.
    pub fn part(&self) -> [u8; 32]
        ensures { result ≡ hash_part self.now.bytes }
    {
        let mut text = [0; 32];
        for (place, character) in text.iter_mut().enumerate() {
            let digit = window(&self.bytes, 8, 5 * (31 - place as u32), 5);
            *character = ALPHABET[digit as usize];
        }
        text
    }

    // The hash of a hash part, or none where the text is no hash part. By name: a `TryFrom` would not say that the bytes are a text, and not the hash's own.
    pub fn from_part(text: &[u8]) -> Option<Hash>
        ensures cases { MatchOption result ((h : List ℕ) → hash_part h ≢ text.now) (λ h. hash_part h.bytes ≡ text.now) }
        ensures back { (h : Hash) → hash_part h.bytes ≡ text.now → result ≡ Some h }
    {
        let digits = digits_of(text)?;
        let mut bytes = [0; 20];
        for (place, byte) in bytes.iter_mut().enumerate() {
            *byte = window(&digits, 5, 8 * place as u32, 8);
        }
        Some(Hash { bytes })
    }
}
