// The label as a block.
ghost use Rattle.card.specs.Fields.{Zero, card_size_field, get, label_mark, mark_field, read};
ghost use Rattle.card.specs.Label.{Half, InRange, Labels};
ghost use Rattle.card.specs.View.{LabelFields, half_of};
ghost use Rattle.std.specs.Prelude.{◌≡◌, Some, Decides, MatchOption};

use crate::bytes::{bytes_at, put};
use crate::places;
use crate::trailer::{put_trailer, read_ending};

// The half of the journal that is in use: how many entries began it, the number of its first entry, and its first block. The fields are numbers as a card
// has them: a damaged label may have any.
#[derive(Clone, Copy, PartialEq, Eq, Debug)]
pub struct Label {
    pub count: u32,
    pub first_number: u64,
    pub first_block: u32,
}

impl Label {
    // Whether each field is one that a card may have.
    fn is_in_range(&self) -> bool
        ensures { Decides result (InRange (half_of self.now)) }
    {
        self.count <= 61
            && (1..=1 << 62).contains(&self.first_number)
            && matches!(self.first_block, 1 | 65)
    }
}

// The label of a card of that many blocks: the fields as they are, and all else zero.
pub fn encode_label(label: &Label, blocks: u32) -> [u8; 256]
    ensures fields { LabelFields blocks result (half_of label.now) }
    ensures labels { InRange (half_of label.now) → Labels blocks result (half_of label.now) }
    ensures clean { Zero 0 232 result }
{
    let mut block = [0; 256];
    put(&mut block, places::CARD_SIZE, &blocks.to_le_bytes());
    put(&mut block, places::BEGAN_WITH, &label.count.to_le_bytes());
    put_trailer(
        &mut block,
        label.first_number,
        label.first_block,
        &places::LABEL_MARK,
    );
    block
}

// Whether the block has the label's mark, for a card of that many blocks.
fn is_label(block: &[u8; 256], blocks: u32) -> bool
    ensures { Decides result ((get mark_field block.now ≡ label_mark) × (read card_size_field block.now ≡ blocks)) }
{
    read_ending(block).mark == places::LABEL_MARK
        && u32::from_le_bytes(bytes_at(block, places::CARD_SIZE)) == blocks
}

// What the label of a card of that many blocks names, or none where the block is no such label.
pub fn decode_label(block: &[u8; 256], blocks: u32) -> Option<Label>
    ensures cases { MatchOption result ((h : Half) → Labels blocks block.now h → ⊥) (λ l. Labels blocks block.now (half_of l)) }
    ensures back { (l : Label) → Labels blocks block.now (half_of l) → result ≡ Some l }
{
    if !is_label(block, blocks) {
        return None;
    }
    let label = Label {
        count: u32::from_le_bytes(bytes_at(block, places::BEGAN_WITH)),
        first_number: u64::from_le_bytes(bytes_at(block, places::NUMBER)),
        first_block: read_ending(block).back,
    };
    label.is_in_range().then_some(label)
}
