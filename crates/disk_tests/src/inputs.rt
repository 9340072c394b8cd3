// Bad input: what has no such block or no power refuses, and nothing changes.
use super::is_full_of;
use super::layered::layered;
use bench_card::BenchCard;
use disk::{Disk, Fault, Image};
use std::process::Abort;
use std::test::Fail;

// A lit disk refuses the blocks that it has not, and leaves the buffer alone.
fn refuses_beyond<D: Disk>(rt: &impl Abort, disk: &mut D) {
    let n = disk.size();
    for b in [n, n + 1, 0x1_0000_0000, u64::MAX] {
        let mut buffer = [7; 256];
        assert_eq!(rt; disk.read(b, &mut buffer), Err(Fault::NoBlock));
        assert!(rt; is_full_of(&buffer, 7));
        assert_eq!(rt; disk.write(b, &[9; 256]), Err(Fault::NoBlock));
    }
}

// A dark disk refuses everything but a restart, and leaves the buffer alone.
fn refuses_dark<D: Disk>(rt: &impl Abort, disk: &mut D) {
    for b in [0, 1, u64::MAX] {
        let mut buffer = [7; 256];
        assert_eq!(rt; disk.read(b, &mut buffer), Err(Fault::Dark));
        assert!(rt; is_full_of(&buffer, 7));
        assert_eq!(rt; disk.write(b, &[9; 256]), Err(Fault::Dark));
        assert_eq!(rt; disk.barrier(), Err(Fault::Dark));
    }
}

// Whether each byte is as it was.
fn is_untouched(bytes: &[u8]) -> bool {
    bytes.iter().all(|x| *x == 5)
}

// An image on these bytes has so many blocks, and refuses the others.
fn image_has(rt: &impl Abort, bytes: &mut [u8], blocks: u64) {
    let mut image = Image::new(bytes);
    assert_eq!(rt; image.size(), blocks);
    refuses_beyond(rt, &mut image);
    assert!(rt; is_untouched(image.into_bytes()));
}

// A card on these bytes likewise; what it refuses it does not count.
fn card_has(rt: &impl Abort, bytes: &mut [u8], blocks: u64) {
    let mut card = BenchCard::new(bytes, 1, 0);
    assert_eq!(rt; card.size(), blocks);
    refuses_beyond(rt, &mut card);
    assert_eq!(rt; card.operations(), 0);
    assert!(rt; is_untouched(card.into_bytes()));
}

#[test]
fn image_sizes(rt: HostRuntime) {
    image_has(&rt, &mut [], 0);
    image_has(&rt, &mut [5; 255], 0);
    image_has(&rt, &mut [5; 256], 1);
    image_has(&rt, &mut [5; 511], 1);
    image_has(&rt, &mut [5; 512], 2);
}

#[test]
fn bench_card_sizes(rt: HostRuntime) {
    card_has(&rt, &mut [], 0);
    card_has(&rt, &mut [5; 255], 0);
    card_has(&rt, &mut [5; 256], 0);
    card_has(&rt, &mut [5; 511], 0);
    card_has(&rt, &mut [5; 512], 1);
}

#[test]
fn dark_card(rt: HostRuntime) {
    let mut bytes = [5; 1024];
    let mut card = BenchCard::new(&mut bytes, 1, 0);
    assert_eq!(rt; card.barrier(), Err(Fault::Dark));
    refuses_dark(&rt, &mut card);
    assert_eq!(rt; card.operations(), 1);
    assert!(rt; is_untouched(card.into_bytes()));
}

#[test]
fn write_behind_over_dark_card(rt: HostRuntime) -> Result<(), Fail> {
    let mut bytes = [5; 1024];
    let mut card = BenchCard::new(&mut bytes, 1, 0);
    assert_eq!(rt; card.barrier(), Err(Fault::Dark));
    let mut disk = layered(rt.alloc(), card)?;
    refuses_dark(&rt, &mut disk);
    assert_eq!(rt; disk.held().len(), 0);
    assert_eq!(rt; disk.below().operations(), 1);
    assert!(rt; is_untouched(disk.into_inner().into_bytes()));
    Ok(())
}

#[test]
fn write_behind_sizes(rt: HostRuntime) -> Result<(), Fail> {
    let mut bytes = [5; 512];
    let image = Image::new(&mut bytes);
    let mut disk = layered(rt.alloc(), image)?;
    assert_eq!(rt; disk.size(), 2);
    refuses_beyond(&rt, &mut disk);
    assert_eq!(rt; disk.held().len(), 0);
    assert!(rt; is_untouched(disk.into_inner().into_bytes()));
    Ok(())
}
