// The end of a block: a number, a block and a mark.
// Number and back block stay two parameters: they are two fields of a block, one statement each in the definitions, and a caller has them apart.
ghost use Rattle.card.specs.Entries.{Marked};
ghost use Rattle.card.specs.Fields.{back_field, get, mark_field, number_field, read};
ghost use Rattle.std.specs.Prelude.{◌≡◌, take, Decides};

use crate::bytes::{bytes_at, put};
use crate::places;

// The last eight bytes of a block.
#[derive(Clone, Copy, PartialEq, Eq, Debug)]
pub(crate) struct Ending {
    pub(crate) back: u32,
    pub(crate) mark: [u8; 4],
}

// Writes the end of a block.
pub(crate) fn put_trailer(block: &mut [u8; 256], number: u64, back: u32, mark: &[u8; 4])
    ensures number { read number_field block.new ≡ number }
    ensures back { read back_field block.new ≡ back }
    ensures mark { get mark_field block.new ≡ mark.now }
    ensures below { take 240 block.new ≡ take 240 block.old }
{
    put(block, places::NUMBER, &number.to_le_bytes());
    put(block, places::BACK, &back.to_le_bytes());
    put(block, places::MARK, mark);
}

// The back block and the mark of a block, named by one slice pattern, as a format is read.
pub(crate) fn read_ending(block: &[u8; 256]) -> Ending
    ensures back { result.back ≡ read back_field block.now }
    ensures mark { result.mark ≡ get mark_field block.now }
{
    let [.., b0, b1, b2, b3, m0, m1, m2, m3] = block;
    Ending {
        back: u32::from_le_bytes([*b0, *b1, *b2, *b3]),
        mark: [*m0, *m1, *m2, *m3],
    }
}

// Whether the block is an entry with that number, after the one in that block.
pub fn counts(block: &[u8; 256], number: u64, back: u32) -> bool
    ensures { Decides result (Marked block.now number back) }
{
    let end = read_ending(block);
    end.mark == places::ENTRY_MARK
        && end.back == back
        && u64::from_le_bytes(bytes_at(block, places::NUMBER)) == number
}
