// The good cards.
use crate::said::Said;
use anyhow::Context;
use catalogue::Catalogue;
use disk::Image;
use journal::{Place, append_and_apply, format_and_clear};
use std::alloc::Global;

// The blocks of each card.
pub(crate) const BLOCKS: u32 = 256;

// The cards. On each the number of an entry is that of its block.
#[derive(Clone, Copy)]
pub(crate) enum Card {
    // 15 entries in the lower half: nine paths, three generations and three switches. The label's count is 0.
    Early,
    // The same and more switches: 64 entries, so that the lower half is full.
    Full,
    // Two more: 14 listed entries and two switches in the upper half. The label's count is 14.
    Late,
    // 40 paths and six generations of profile 0: 46 entries in the lower half.
    Crowded,
}

// Where one more entry goes: its block, and how many entries the half then has.
#[derive(Clone, Copy)]
pub(crate) struct Next {
    pub(crate) block: u32,
    pub(crate) count: u32,
}

// The first entries of the cards but the last: paths with 2, 1 and 1 blocks and with none, and generations of two profiles.
const STORY: [Said; 12] = [
    Said::Register(1, 300, 252, &[]),
    Said::Register(2, 1, 251, &[1]),
    Said::Register(3, 0, 0, &[3]),
    Said::Register(4, 256, 249, &[1, 2]),
    Said::Register(5, 0, 0, &[]),
    Said::Register(6, 0, 0, &[]),
    Said::Register(7, 0, 0, &[]),
    Said::Register(8, 0, 0, &[]),
    Said::Register(257, 0, 0, &[]),
    Said::Commit(0, 1, 2),
    Said::Commit(0, 2, 4),
    Said::Commit(1, 5, 4),
];

// The entry in this place of the story: at its end, switches from one generation to the other.
fn story_entry(place: u32) -> Said {
    STORY
        .get(place as usize)
        .copied()
        .unwrap_or(Said::Switch(0, place % 2 + 1))
}

// The entry in this place of the crowd.
fn crowd_entry(place: u32) -> Said {
    if place < 40 {
        Said::Register((place + 1) as u16, 0, 0, &[])
    } else {
        Said::Commit(0, place - 39, 1)
    }
}

impl Card {
    // How many entries are appended to a card made new.
    fn appended(&self) -> u32 {
        match self {
            Card::Early => 15,
            Card::Full => 64,
            Card::Late => 66,
            Card::Crowded => 46,
        }
    }

    fn entry_at(&self, place: u32) -> Said {
        match self {
            Card::Crowded => crowd_entry(place),
            _ => story_entry(place),
        }
    }

    // Where the next entry goes.
    pub(crate) fn next(&self) -> Next {
        match self {
            Card::Early => Next {
                block: 16,
                count: 16,
            },
            Card::Full => Next {
                block: 65,
                count: 65,
            },
            Card::Late => Next {
                block: 81,
                count: 17,
            },
            Card::Crowded => Next {
                block: 47,
                count: 47,
            },
        }
    }

    // The bytes of the card.
    pub(crate) fn bytes(&self, heap: Global) -> anyhow::Result<Vec<u8>> {
        let mut bytes = vec![in heap; 0; BLOCKS as usize * 256]?;
        let mut disk = Image::new(bytes.as_mut_slice());
        let mut catalogue = Catalogue::new(heap, BLOCKS)?;
        let mut place = format_and_clear(&mut disk, &mut catalogue).context("no card")?;
        for k in 0..self.appended() {
            enter(&mut disk, &mut catalogue, &mut place, &self.entry_at(k))?;
        }
        Ok(bytes)
    }
}

// Appends the entry, which has to fit.
fn enter(
    disk: &mut Image<'_>,
    catalogue: &mut Catalogue,
    place: &mut Place,
    said: &Said,
) -> anyhow::Result<()> {
    let entry = said.entry().context("no entry")?;
    append_and_apply(disk, catalogue, place, &entry).context("an entry does not fit")
}
