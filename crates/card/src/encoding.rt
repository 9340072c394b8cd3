// Entries as blocks.
ghost use Rattle.std.specs.Prelude.{◌≡◌, ◌≤◌, map, length};
ghost use Rattle.card.specs.Entries.{Clean, Marked, Says};
ghost use Rattle.card.specs.Fields.{Zero, generation_field, kind_field, profile_field, read};
ghost use Rattle.card.specs.Kinds.{byte_of};
ghost use Rattle.card.specs.Written.{WroteHashes};
ghost use Rattle.model.specs.Plain.{register};
ghost use Rattle.records.specs.View.{bytes_of, entry_of, path_of};

use crate::bytes::put;
use crate::kind::Kind;
use crate::places;
use crate::trailer::put_trailer;
use naming::Hash;
use records::{Entry, PathRecord};

// Writes the hashes that a path refers to. Each one's place is counted: of chunks lent for writing a proof does not know what they leave in the block.
fn put_references(block: &mut [u8; 256], hashes: &[Hash])
    requires { length hashes.now ≤ 8 }
    ensures { WroteHashes (map bytes_of hashes.now) block.old block.new }
{
    for (k, hash) in hashes.iter().enumerate() {
        put(block, places::REFERENCES + 20 * k, &hash.bytes);
    }
}

// What an entry that registers a path has before its trailer.
fn path_fields(path: &PathRecord) -> [u8; 256]
    ensures says { Says result (register (path_of path.now)) }
    ensures clean { Clean result (register (path_of path.now)) }
{
    let name = path.name.as_bytes();
    let hashes = path.refs.as_slice();
    let mut block = [0; 256];
    put(&mut block, places::KIND, &[Kind::Register as u8]);
    put(&mut block, places::HASH, &path.hash.bytes);
    put(&mut block, places::NAME_LENGTH, &[name.len() as u8]);
    put(&mut block, places::NAME, name);
    put(&mut block, places::SIZE, &path.size.to_le_bytes());
    put(&mut block, places::FIRST_BLOCK, &path.first.to_le_bytes());
    put(&mut block, places::REFERENCE_COUNT, &[hashes.len() as u8]);
    put_references(&mut block, hashes);
    block
}

// What an entry of a generation has before its trailer.
fn generation_fields(kind: Kind, profile: u8, number: u32) -> [u8; 256]
    ensures kind { read kind_field result ≡ byte_of kind }
    ensures profile { read profile_field result ≡ profile }
    ensures number { read generation_field result ≡ number }
    ensures clean { Zero 6 256 result }
{
    let mut block = [0; 256];
    put(&mut block, places::KIND, &[kind as u8]);
    put(&mut block, places::PROFILE, &[profile]);
    put(&mut block, places::GENERATION, &number.to_le_bytes());
    block
}

// What an entry has before its trailer.
fn fields_of(entry: &Entry) -> [u8; 256]
    ensures says { Says result (entry_of entry.now) }
    ensures clean { Clean result (entry_of entry.now) }
{
    match entry {
        Entry::Register(path) => path_fields(path),
        Entry::Commit {
            profile,
            number,
            hash,
        } => {
            let mut block = generation_fields(Kind::Commit, *profile, *number);
            put(&mut block, places::COMMITTED, &hash.bytes);
            block
        }
        Entry::Switch { profile, number } => generation_fields(Kind::Switch, *profile, *number),
        Entry::Forget { profile, number } => generation_fields(Kind::Forget, *profile, *number),
        Entry::Remove(hash) => {
            let mut block = [0; 256];
            put(&mut block, places::KIND, &[Kind::Remove as u8]);
            put(&mut block, places::HASH, &hash.bytes);
            block
        }
    }
}

// The block of an entry with its number, after the entry in that block. Both stay parameters: they are two fields of a block, as the definitions have them.
pub fn encode_entry(entry: &Entry, number: u64, back: u32) -> [u8; 256]
    ensures says { Says result (entry_of entry.now) }
    ensures marked { Marked result number back }
    ensures clean { Clean result (entry_of entry.now) }
{
    let mut block = fields_of(entry);
    put_trailer(&mut block, number, back, &places::ENTRY_MARK);
    block
}
