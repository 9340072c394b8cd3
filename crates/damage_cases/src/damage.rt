// What happens to a card.
use crate::cards::BLOCKS;
use crate::said::Said;
use anyhow::Context;
use card::{Label, encode_entry, encode_label};
use disk::{read_block, write_block};

// Where the label's count begins.
const COUNT: u8 = 236;

// A change of one block: of bytes from a place of it on, or of all of it.
#[derive(Clone, Copy, PartialEq, Eq, Debug)]
pub(crate) enum Damage {
    Nothing,
    // The place and the byte there.
    Byte(u8, u8),
    // The place and the number of four bytes there.
    Word(u8, u32),
    // The place and the number of eight bytes there.
    Long(u8, u64),
    // The place of a byte that is one more, or one less.
    Up(u8),
    Down(u8),
    // The first and the last place of bytes that are all the third.
    Fill(u8, u8, u8),
    // A label's count, first number and first block.
    Label(u32, u64, u32),
}

// Puts the bytes from that place on.
fn put(block: &mut [u8; 256], place: u8, bytes: &[u8]) {
    let first = usize::from(place);
    if let Some(part) = block.get_mut(first..first + bytes.len()) {
        part.copy_from_slice(bytes);
    }
}

// Makes all bytes from the first to the last place the same.
fn fill(block: &mut [u8; 256], first: u8, last: u8, byte: u8) {
    if let Some(bytes) = block.get_mut(first as usize..=last as usize) {
        bytes.fill(byte);
    }
}

// The block after the damage.
fn damaged(block: &[u8; 256], damage: Damage) -> [u8; 256] {
    let mut after = *block;
    match damage {
        Damage::Nothing => {}
        Damage::Byte(place, byte) => after[place as usize] = byte,
        Damage::Word(place, number) => put(&mut after, place, &number.to_le_bytes()),
        Damage::Long(place, number) => put(&mut after, place, &number.to_le_bytes()),
        Damage::Up(place) => after[place as usize] = block[place as usize].wrapping_add(1),
        Damage::Down(place) => after[place as usize] = block[place as usize].wrapping_sub(1),
        Damage::Fill(first, last, byte) => fill(&mut after, first, last, byte),
        Damage::Label(count, first_number, first_block) => {
            after = encode_label(
                &Label {
                    count,
                    first_number,
                    first_block,
                },
                BLOCKS,
            );
        }
    }
    after
}

// Damages this block of the card.
pub(crate) fn damage_block(card: &mut [u8], number: u32, damage: Damage) {
    let mut block = [0; 256];
    let _ = read_block(card, u64::from(number), &mut block);
    let _ = write_block(card, u64::from(number), &damaged(&block, damage));
}

// Gives the label of the card this count.
pub(crate) fn set_count(card: &mut [u8], count: u32) {
    damage_block(card, 0, Damage::Word(COUNT, count));
}

// Writes an entry that counts to this block of the card, but for the bytes that are given, each with its place.
pub(crate) fn forge(
    card: &mut [u8],
    number: u32,
    said: &Said,
    bytes: &[(u8, u8)],
) -> anyhow::Result<()> {
    let entry = said.entry().context("no entry")?;
    let mut block = encode_entry(&entry, u64::from(number), number.saturating_sub(1));
    for (place, byte) in bytes {
        block[*place as usize] = *byte;
    }
    write_block(card, u64::from(number), &block)?;
    Ok(())
}
