// Worked examples of the card's blocks, byte by byte, and blocks that are damaged.
#![tactic(auto)]

use naming::{Hash, Name};
use records::{Entry, PathRecord, References};

#[cfg(test)]
mod damaged;
#[cfg(test)]
mod worked;

// A path of 300 bytes from block 254 on, which refers to itself.
pub fn blade() -> Option<Entry> {
    let hash = Hash::new(
        *b"\0\x01\x02\x03\x04\x05\x06\x07\x08\x09\x0a\x0b\x0c\x0d\x0e\x0f\x10\x11\x12\x13",
    );
    let name = Name::new(b"blade-1")?;
    let refs = References::from_slice(&[hash]).ok()?;
    Some(Entry::Register(PathRecord {
        hash,
        name,
        size: 300,
        first: 254,
        refs,
    }))
}

// Whether all of the bytes are zero.
pub fn is_zero(bytes: &[u8]) -> bool {
    bytes.iter().all(|byte| *byte == 0)
}
