// One block written to a bench card through write-behind, a power cut, a restart, and what is found.
use super::is_full_of;
use super::layered::layered;
use bench_card::BenchCard;
use disk::{Disk, Fault};
use std::process::Abort;
use std::test::Fail;

// What block 0 holds after a write of 8 and a barrier that is cut, with 3 settled in it before.
fn found_after_cut(rt: &(impl Abort + AllocGlobal), cut: u64, kept: u32) -> Result<u8, Fail> {
    let mut bytes = [3; 1024];
    let card = BenchCard::new(&mut bytes, cut, kept);
    let mut disk = layered(rt.alloc(), card)?;
    assert_eq!(rt; disk.write(0, &[8; 256]), Ok(()));
    assert_eq!(rt; disk.held().len(), 1);
    assert_eq!(rt; disk.barrier(), Err(Fault::Dark));
    disk.restart();
    assert_eq!(rt; disk.held().len(), 0);
    let mut block = [0; 256];
    assert_eq!(rt; disk.read(0, &mut block), Ok(()));
    let v = block[0];
    assert!(rt; is_full_of(&block, v));
    Ok(v)
}

#[test]
fn old_or_new(rt: HostRuntime) -> Result<(), Fail> {
    // The cut falls after the block came to the card: the restart number decides.
    assert_eq!(rt; found_after_cut(&rt, 1, 0)?, 3);
    assert_eq!(rt; found_after_cut(&rt, 1, 1)?, 8);
    // It falls before the barrier settles anything: likewise.
    assert_eq!(rt; found_after_cut(&rt, 2, 2)?, 3);
    assert_eq!(rt; found_after_cut(&rt, 2, 3)?, 8);
    Ok(())
}

#[test]
fn longest_held_first(rt: HostRuntime) -> Result<(), Fail> {
    let mut bytes = [0; 512 * 18];
    let card = BenchCard::new(&mut bytes, 0, 0);
    let mut disk = layered(rt.alloc(), card)?;
    for b in 0..16u64 {
        assert_eq!(rt; disk.write(b, &[1; 256]), Ok(()));
    }
    assert_eq!(rt; disk.write(0, &[2; 256]), Ok(()));
    assert_eq!(rt; disk.below().operations(), 0);
    assert_eq!(rt; disk.write(16, &[1; 256]), Ok(()));
    assert_eq!(rt; disk.below().operations(), 1);
    let mut block = [0; 256];
    assert_eq!(rt; disk.below().read(0, &mut block), Ok(()));
    assert!(rt; is_full_of(&block, 2));
    let held = disk.held();
    assert!(rt; held.len() == 16);
    assert_eq!(rt; held[0].at, 1);
    assert_eq!(rt; held[15].at, 16);
    assert_eq!(rt; disk.barrier(), Ok(()));
    assert_eq!(rt; disk.below().operations(), 18);
    assert_eq!(rt; disk.held().len(), 0);
    Ok(())
}
