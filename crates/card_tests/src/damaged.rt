// Damaged blocks: what is still read, and what is not.
use crate::blade;
use card::{Label, decode_entry, decode_label, encode_entry, encode_label};
use std::test::Fail;

// Whether a blade's block is read with another byte at that place.
fn reads(place: u8, byte: u8) -> Result<bool, Fail> {
    let entry = blade().ok_or("no entry")?;
    let mut block = encode_entry(&entry, 1, 0);
    block[usize::from(place)] = byte;
    Ok(decode_entry(&block).is_some())
}

// Whether a label is read with that count, first number and first block.
fn labels(count: u32, first_number: u64, first_block: u32) -> bool {
    let label = Label {
        count,
        first_number,
        first_block,
    };
    decode_label(&encode_label(&label, 130), 130).is_some()
}

#[test]
fn kinds(rt: HostRuntime) -> Result<(), Fail> {
    for kind in 0..=255 {
        assert!(rt; reads(0, kind)? == (1..=5).contains(&kind));
    }
    Ok(())
}

#[test]
fn names_and_references(rt: HostRuntime) -> Result<(), Fail> {
    let cases = [
        (21, 0, false),
        (21, 1, true),
        (21, 8, false),
        (21, 24, false),
        (21, 25, false),
        (21, 255, false),
        (22, b'.', false),
        (22, b' ', false),
        (29, b' ', true),
        (54, 0, true),
        (54, 8, true),
        (54, 9, false),
        (54, 255, false),
        (215, 255, true),
        (239, 255, true),
        (255, 0, true),
    ];
    for (place, byte, read) in cases {
        assert!(rt; reads(place, byte)? == read);
    }
    Ok(())
}

#[test]
fn label_fields(rt: HostRuntime) {
    assert!(rt; labels(61, 1, 1));
    assert!(rt; !labels(62, 1, 1));
    assert!(rt; !labels(0, 0, 1));
    assert!(rt; labels(0, 1 << 62, 65));
    assert!(rt; !labels(0, (1 << 62) + 1, 65));
    assert!(rt; !labels(0, 1, 0));
    assert!(rt; !labels(0, 1, 64));
    assert!(rt; !labels(0, 1, 129));
}
