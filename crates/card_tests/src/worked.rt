// The worked examples of docs/card.md.
use crate::{blade, is_zero};
use card::{Label, counts, decode_entry, decode_label, encode_entry, encode_label};
use std::test::Fail;

#[test]
fn registers_a_blade(rt: HostRuntime) -> Result<(), Fail> {
    let entry = blade().ok_or("no entry")?;
    let block = encode_entry(&entry, 5, 4);
    assert!(rt;
        block[0..].starts_with(
            b"\x01\0\x01\x02\x03\x04\x05\x06\x07\x08\x09\x0a\x0b\x0c\x0d\x0e\x0f\x10\x11\x12\x13\x07",
        )
    );
    assert!(rt; block[22..].starts_with(b"blade-1"));
    assert!(rt; is_zero(&block[29..46]));
    assert!(rt; block[46..].starts_with(b"\x2c\x01\0\0\xfe\0\0\0\x01"));
    assert!(rt;
        block[55..].starts_with(
            b"\0\x01\x02\x03\x04\x05\x06\x07\x08\x09\x0a\x0b\x0c\x0d\x0e\x0f\x10\x11\x12\x13",
        )
    );
    assert!(rt; is_zero(&block[75..240]));
    assert!(rt; block[240..].starts_with(b"\x05\0\0\0\0\0\0\0\x04\0\0\0ENTR"));
    let back = decode_entry(&block).ok_or("not read")?;
    assert!(rt; back == entry);
    assert!(rt; encode_entry(&back, 5, 4) == block);
    assert!(rt; counts(&block, 5, 4));
    assert!(rt; !counts(&block, 6, 4));
    assert!(rt; !counts(&block, 5, 5));
    Ok(())
}

#[test]
fn labels_the_second_half(rt: HostRuntime) -> Result<(), Fail> {
    let label = Label {
        count: 3,
        first_number: 65,
        first_block: 65,
    };
    let block = encode_label(&label, 256);
    assert!(rt; is_zero(&block[0..232]));
    assert!(rt; block[232..].starts_with(b"\0\x01\0\0\x03\0\0\0A\0\0\0\0\0\0\0A\0\0\0LABL"));
    let back = decode_label(&block, 256).ok_or("not read")?;
    assert!(rt; back == label);
    assert!(rt; decode_label(&block, 255).is_none());
    assert!(rt; !counts(&block, 65, 65));
    Ok(())
}
