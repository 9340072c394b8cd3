// Every cut of a short run of writes and barriers: each block is found with a content that it may have.
use super::is_full_of;
use super::layered::layered;
use bench_card::BenchCard;
use disk::{Disk, Fault};
use std::test::Fail;

const BLOCKS: usize = 18;

#[derive(Clone, Copy)]
enum Step {
    Write(usize, u8),
    Barrier,
}

// Eighteen blocks in turn, so that two of them come out of write-behind before the first barrier.
const STEPS: [Step; 26] = [
    Step::Write(0, 1),
    Step::Write(1, 1),
    Step::Write(2, 1),
    Step::Write(3, 1),
    Step::Write(4, 1),
    Step::Write(5, 1),
    Step::Write(6, 1),
    Step::Write(7, 1),
    Step::Write(8, 1),
    Step::Write(9, 1),
    Step::Write(10, 1),
    Step::Write(11, 1),
    Step::Write(12, 1),
    Step::Write(13, 1),
    Step::Write(14, 1),
    Step::Write(15, 1),
    Step::Write(16, 1),
    Step::Write(17, 1),
    Step::Write(1, 2),
    Step::Barrier,
    Step::Write(0, 3),
    Step::Write(17, 4),
    Step::Write(0, 5),
    Step::Barrier,
    Step::Barrier,
    Step::Write(9, 6),
];

// Restart numbers: none kept, all kept, and some.
const KEPT: [u32; 5] = [0, 0xffff_ffff, 1, 0x0001_5555, 0x0002_aaaa];

// Which content a block has, and with which it may be found: bit v stands for a block full of v.
#[derive(Clone, Copy)]
struct Contents {
    present: u32,
    may: u32,
}

impl Contents {
    // Whether the block may be found with this content.
    fn allows(&self, bit: u32) -> bool {
        self.may & bit != 0
    }
}

// The contents of each block.
#[derive(Drop)]
struct Allowed {
    blocks: [Contents; BLOCKS],
}

impl Allowed {
    fn new() -> Allowed {
        Allowed {
            blocks: [Contents { present: 1, may: 1 }; BLOCKS],
        }
    }

    // Whether done or cut, a write lets its block be found with the new content.
    fn writes(&mut self, b: usize, v: u8) {
        if let Some(block) = self.blocks.get_mut(b) {
            block.present = 1 << (v % 32);
            block.may |= block.present;
        }
    }

    // A done barrier leaves the present contents alone.
    fn settles(&mut self) {
        for block in &mut self.blocks {
            block.may = block.present;
        }
    }
}

// Runs the steps until they end or the power goes.
fn run<D: Disk>(disk: &mut D, allowed: &mut Allowed) -> Result<(), Fault> {
    for step in STEPS {
        match step {
            Step::Write(b, v) => {
                allowed.writes(b, v);
                disk.write(b as u64, &[v; 256])?;
            }
            Step::Barrier => {
                disk.barrier()?;
                allowed.settles();
            }
        }
    }
    Ok(())
}

// The content of block `b`, as a bit; none if the block is not full of one small number.
fn found<D: Disk>(disk: &D, b: usize) -> Option<u32> {
    let mut block = [0; 256];
    disk.read(b as u64, &mut block).ok()?;
    let v = block[0];
    (v < 32 && is_full_of(&block, v)).then_some(1 << (v % 32))
}

// Reads every block of a restarted disk, and sees that what is found is allowed.
fn all_allowed<D: Disk>(disk: &D, allowed: &Allowed) -> bool {
    let mut blocks = allowed.blocks.iter().enumerate();
    blocks.all(|(b, block)| found(disk, b).is_some_and(|bit| block.allows(bit)))
}

#[test]
fn bench_card_cut_anywhere(rt: HostRuntime) {
    for cut in 0..28u64 {
        for kept in KEPT {
            let mut bytes = [0; 512 * BLOCKS];
            let mut card = BenchCard::new(&mut bytes, cut, kept);
            let mut allowed = Allowed::new();
            let ran = run(&mut card, &mut allowed);
            assert!(rt; ran.is_ok() == card.is_lit());
            assert!(rt; card.is_lit() == (cut == 0 || cut > 26));
            card.restart();
            assert!(rt; all_allowed(&card, &allowed));
        }
    }
}

#[test]
fn write_behind_cut_anywhere(rt: HostRuntime) -> Result<(), Fail> {
    for cut in 0..28u64 {
        for kept in KEPT {
            let mut bytes = [0; 512 * BLOCKS];
            let card = BenchCard::new(&mut bytes, cut, kept);
            let mut disk = layered(rt.alloc(), card)?;
            let mut allowed = Allowed::new();
            let _ = run(&mut disk, &mut allowed);
            disk.restart();
            assert!(rt; all_allowed(&disk, &allowed));
            assert!(rt; disk.held().len() == 0);
        }
    }
    Ok(())
}
