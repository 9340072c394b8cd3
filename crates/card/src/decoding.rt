// Blocks as entries. A format is read by slice patterns: one splits byte 0, the kind, from the rest; another names the back block and the mark (`read_ending`).
// `rest` is a block without its first byte, so a place in it is one less.
ghost use Rattle.std.specs.Prelude.{◌≡◌, ℕ, ◌<◌, List, map, drop, None, MatchOption};
ghost use Rattle.card.specs.Entries.{Says, SaysPath};
ghost use Rattle.card.specs.Fields.{generation_field, kind_field, profile_field, read, reference_count_field};
ghost use Rattle.card.specs.View.{Decodes, ReadablePath, SaysName, SaysReferences};
ghost use Rattle.model.specs.Fits.{Fits};
ghost use Rattle.model.specs.Plain.{Path as PlainPath, Entry as PlainEntry, Catalogue as PlainCatalogue};
ghost use Rattle.naming.specs.Name.{Lawful};
ghost use Rattle.naming.specs.Texts.{name_text};
ghost use Rattle.records.specs.View.{bytes_of, entry_of, listed, path_of};

use crate::bytes::bytes_at;
use crate::kind::Kind;
use crate::places;
use naming::{Hash, Name};
use records::{Entry, PathRecord, References};

// The first byte of a block, and the rest. The pattern looks at a slice: of an array that is lent, the checker makes no proof of a part named by `rest @ ..`.
fn split(block: &[u8; 256]) -> (u8, &[u8; 255])
    ensures kind { result.0 ≡ read kind_field block.now }
    ensures rest { drop 1 block.now ≡ result.1.now }
{
    let [kind, rest @ ..] = &block[..] else {
        unreachable()
    };
    (*kind, <&[u8; 255]>::try_from(rest).unwrap())
}

// The name, or none where it is not lawful.
fn decode_name(rest: &[u8; 255]) -> Option<Name>
    ensures { (block : List ℕ) → drop 1 block ≡ rest.now → MatchOption result ((name : List ℕ) → SaysName block name → Lawful name → ⊥) (λ n. SaysName block (name_text n)) }
{
    let length = rest[places::NAME_LENGTH - 1] as usize;
    if length > places::LONGEST_NAME {
        return None;
    }
    Name::new(&rest[places::NAME - 1..places::NAME - 1 + length])
}

// The references, or none where they are more than eight.
fn decode_references(rest: &[u8; 255]) -> Option<References>
    ensures { (block : List ℕ) → drop 1 block ≡ rest.now → MatchOption result (8 < read reference_count_field block) (λ refs. SaysReferences block (map bytes_of (listed refs))) }
{
    let count = rest[places::REFERENCE_COUNT - 1] as usize;
    let (hashes, _) = rest[places::REFERENCES - 1..].as_chunks::<20>();
    let mut refs = References::new();
    for bytes in hashes.get(..count)? {
        refs.push(Hash::new(*bytes)).ok()?;
    }
    Some(refs)
}

// The path that an entry registers.
fn decode_path(rest: &[u8; 255]) -> Option<PathRecord>
    ensures { (block : List ℕ) → drop 1 block ≡ rest.now → MatchOption result ((p : PlainPath) → SaysPath block p → ReadablePath p → ⊥) (λ path. SaysPath block (path_of path)) }
{
    let name = decode_name(rest)?;
    let refs = decode_references(rest)?;
    Some(PathRecord {
        hash: Hash::new(bytes_at(rest, places::HASH - 1)),
        name,
        size: u32::from_le_bytes(bytes_at(rest, places::SIZE - 1)),
        first: u32::from_le_bytes(bytes_at(rest, places::FIRST_BLOCK - 1)),
        refs,
    })
}

// The profile and the number of the generation that an entry speaks of.
fn decode_generation(rest: &[u8; 255]) -> (u8, u32)
    ensures { (block : List ℕ) → drop 1 block ≡ rest.now → (read profile_field block ≡ result.0) × (read generation_field block ≡ result.1) }
{
    (
        rest[places::PROFILE - 1],
        u32::from_le_bytes(bytes_at(rest, places::GENERATION - 1)),
    )
}

// The entry, where the block says one.
fn decode_block(block: &[u8; 256]) -> Option<Entry>
    ensures { Decodes block.now result }
{
    let (kind, rest) = split(block);
    match Kind::try_from(kind).ok()? {
        Kind::Register => Some(Entry::Register(decode_path(rest)?)),
        Kind::Commit => {
            let (profile, number) = decode_generation(rest);
            let hash = Hash::new(bytes_at(rest, places::COMMITTED - 1));
            Some(Entry::Commit {
                profile,
                number,
                hash,
            })
        }
        Kind::Switch => {
            let (profile, number) = decode_generation(rest);
            Some(Entry::Switch { profile, number })
        }
        Kind::Forget => {
            let (profile, number) = decode_generation(rest);
            Some(Entry::Forget { profile, number })
        }
        Kind::Remove => Some(Entry::Remove(Hash::new(bytes_at(rest, places::HASH - 1)))),
    }
}

// The entry that a block says, or none where it is of no kind or registers a path that has no lawful name or over eight references.
pub fn decode_entry(block: &[u8; 256]) -> Option<Entry>
    ensures cases { Decodes block.now result }
    ensures unfit { result ≡ None → (e : PlainEntry) → Says block.now e → (n : ℕ) (cat : PlainCatalogue) → Fits n cat e → ⊥ }
    ensures back { (e : Entry) → Says block.now (entry_of e) → MatchOption result ⊥ (λ f. entry_of f ≡ entry_of e) }
    ensures once { (e f : PlainEntry) → Says block.now e → Says block.now f → e ≡ f }
{
    decode_block(block)
}
