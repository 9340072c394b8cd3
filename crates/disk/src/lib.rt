// Disks by their meaning: what a block holds, and what a power cut may leave it with.
#![tactic(auto)]

ghost use Rattle.disk.specs.Meaning.{Barrier, Meaning, Read, Restarted, Size, Sound, Write};

mod image;
mod row;

pub use image::Image;
pub use row::{read_block, write_block};
use std::error::Error;
use std::fmt;

// Why a disk did not do what was asked: it has no power, or it has no such block.
#[derive(Clone, Copy, PartialEq, Eq, Debug)]
pub enum Fault {
    Dark,
    NoBlock,
}

impl fmt::Display for Fault {
    ghost use Rattle.std.specs.Prelude.{Some};
    ghost use Rattle.disk.specs.Faults.{fault_text};

    ghost output = { λ fault. Some (fault_text fault) };

    fn fmt<W: fmt::Write>(&self, f: &mut fmt::Formatter<W>) -> fmt::Result {
        match self {
            Fault::Dark => f.write_str("the disk has no power"),
            Fault::NoBlock => f.write_str("the disk has no such block"),
        }
    }
}

impl Error for Fault {}

// The most blocks that a disk has.
pub const MOST_BLOCKS: u64 = 0x1_0000_0000;

// A disk of blocks of 256 bytes. Each operation is a relation between its meaning before and after.
pub trait Disk {
    ghost means: { Self → Meaning };

    // How many blocks the disk has. What holds of every disk at every time is told here too.
    fn size(&self) -> u64
        ensures value { Size (means self.now) result }
        ensures sound { Sound (means self.now) };

    // Fills `into` with the present content of block `b`.
    fn read(&self, b: u64, into: &mut [u8; 256]) -> Result<(), Fault>
        ensures { Read (means self.now) b into.old result into.new };

    // Gives block `b` the content `from`. Until a barrier is done, a cut may undo it.
    fn write(&mut self, b: u64, from: &[u8; 256]) -> Result<(), Fault>
        ensures { Write (means self.old) b from.now result (means self.new) };

    // Is done once no cut can undo what was written before it.
    fn barrier(&mut self) -> Result<(), Fault>
        ensures { Barrier (means self.old) result (means self.new) };

    // Cuts the power, if there is any, and brings it back.
    fn restart(&mut self)
        ensures { Restarted (means self.old) (means self.new) };
}
