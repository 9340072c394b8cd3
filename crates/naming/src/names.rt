// Names, made from any text.
ghost use Rattle.naming.specs.Name.{Lawful, allowed};
ghost use Rattle.naming.specs.Texts.{name_text};
ghost use Rattle.std.specs.Prelude.{◌≡◌, Some, MatchOption};

use crate::name::Name;

// Whether a name may hold the byte.
fn is_allowed(byte: u8) -> bool
    ensures { result ≡ allowed byte }
{
    matches!(
        char::from(byte),
        'a'..='z' | 'A'..='Z' | '0'..='9' | '+' | '-' | '.' | '_' | '?' | '='
    )
}

impl Name {
    // The name of that text, or none where the text is no lawful name. An `Option`, and no `TryFrom`: of a text that is none there is nothing more to say.
    pub fn new(text: &[u8]) -> Option<Name>
        ensures cases { MatchOption result (Lawful text.now → ⊥) (λ n. Lawful text.now × (name_text n ≡ text.now)) }
        ensures back { (n : Name) → name_text n ≡ text.now → result ≡ Some n }
    {
        if text.is_empty() || text.len() > 24 || text[0] == b'.' {
            return None;
        }
        if !text.iter().all(|byte| is_allowed(*byte)) {
            return None;
        }
        let mut bytes = [0; 24];
        bytes[..text.len()].copy_from_slice(text);
        Some(Name {
            len: text.len(),
            bytes,
        })
    }

    // The text of the name.
    pub fn as_bytes(&self) -> &[u8]
        ensures { result.now ≡ name_text self.now }
    {
        &self.bytes[0..self.len]
    }
}
