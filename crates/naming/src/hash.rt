// A hash: 20 bytes.
ghost use Rattle.std.specs.Prelude.{◌≡◌, ℕ, ◌<◌, length, slice_index};

#[derive(Clone, Copy, PartialEq, Eq, Debug)]
pub struct Hash {
    pub bytes: [u8; 20],
    ghost whole: { length bytes ≡ 20 },
    ghost small: { (k : ℕ) → slice_index bytes k < 256 },
}

impl Hash {
    // The hash of those bytes.
    pub fn new(bytes: [u8; 20]) -> Hash
        ensures { result.bytes ≡ bytes }
    {
        Hash { bytes }
    }
}
