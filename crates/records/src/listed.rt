// References made from any hashes, and lent as a slice.
ghost use Rattle.std.specs.Prelude.{◌≡◌, ◌<◌, [], length, Ok, MatchResult};
ghost use Rattle.records.specs.Push.{Pushed};
ghost use Rattle.records.specs.View.{listed};
ghost use Rattle.records.specs.declared.references.References.{References};

use crate::full::Full;
use crate::references::{MOST_REFERENCES, References};
use naming::Hash;

impl References {
    // These hashes, unless they are more than eight. The places after the last hash hold zeros.
    pub fn from_slice(hashes: &[Hash]) -> Result<References, Full>
        ensures cases { MatchResult result (λ x. listed x ≡ hashes.now) (λ full. 8 < length hashes.now) }
        ensures back { (refs : References) → listed refs ≡ hashes.now → result ≡ Ok refs }
    {
        if hashes.len() > MOST_REFERENCES {
            return Err(Full);
        }
        let mut all = References::new().hashes;
        all[..hashes.len()].copy_from_slice(hashes);
        Ok(References {
            count: hashes.len(),
            hashes: all,
        })
    }

    // No references.
    pub fn new() -> References
        ensures { listed result ≡ [] }
    {
        References {
            count: 0,
            hashes: [Hash::new([0; 20]); MOST_REFERENCES],
        }
    }

    // Puts one more hash after the others, unless there are eight.
    pub fn push(&mut self, hash: Hash) -> Result<(), Full>
        ensures { Pushed (listed self.old) hash result (listed self.new) }
    {
        if self.count == MOST_REFERENCES {
            return Err(Full);
        }
        self.hashes[self.count] = hash;
        self.count += 1;
        Ok(())
    }

    // The hashes.
    pub fn as_slice(&self) -> &[Hash]
        ensures { result.now ≡ listed self.now }
    {
        &self.hashes[..self.count]
    }
}
