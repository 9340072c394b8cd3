// The plain image: a disk on lent bytes that keeps each write at once and never goes dark.
ghost use Rattle.disk.specs.Meaning.{Barrier, Restarted, Write};
ghost use Rattle.disk.specs.Plain.{Stored, plain};
ghost use Rattle.std.specs.Prelude.{◌≡◌};

use super::{Disk, Fault, MOST_BLOCKS, row};

// A disk over the whole blocks of `bytes`.
#[derive(Drop)]
pub struct Image<'a> {
    bytes: &'a mut [u8],
}

impl<'a> Image<'a> {
    // A disk over these bytes.
    pub fn new(bytes: &'a mut [u8]) -> Image<'a>
        ensures bytes { result.bytes.now ≡ bytes.old }
        ensures lender { result.bytes.ghost_name ≡ bytes.entry.ghost_name }
    {
        Image { bytes }
    }

    // The bytes as they are.
    pub fn bytes(&self) -> &[u8]
        ensures { result.now ≡ self.now.bytes.now }
    {
        &*self.bytes
    }

    // Gives the bytes back.
    pub fn into_bytes(self) -> &'a mut [u8]
        ensures bytes { result.now ≡ self.entry.bytes.now }
        ensures lender { result.ghost_name ≡ self.entry.bytes.ghost_name }
    {
        let Image { bytes } = self;
        bytes
    }
}

// A row may have more whole blocks than a disk has, so the size of the disk is asked for before the row's.
impl<'a> Disk for Image<'a> {
    ghost means = { λ s. plain s.bytes.now };

    #[tactic(auto, using(crate::proofs::Rows::block_whole))]
    fn size(&self) -> u64 {
        (self.bytes.len() as u64 / 256).min(MOST_BLOCKS)
    }

    fn read(&self, b: u64, into: &mut [u8; 256]) -> Result<(), Fault> {
        if b >= self.size() {
            return Err(Fault::NoBlock);
        }
        row::read_block(self.bytes, b, into)
    }

    #[tactic(auto, using(crate::proofs::Rows::with_length, crate::proofs::Rows::with_here, crate::proofs::Rows::with_other))]
    fn write(&mut self, b: u64, from: &[u8; 256]) -> Result<(), Fault>
        ensures meaning { Write (plain self.old.bytes.now) b from.now result (plain self.new.bytes.now) }
        ensures bytes { Stored self.old.bytes.now b from.now result self.new.bytes.now }
        ensures lender { self.new.bytes.ghost_name ≡ self.old.bytes.ghost_name }
    {
        if b >= self.size() {
            return Err(Fault::NoBlock);
        }
        row::write_block(self.bytes, b, from)
    }

    fn barrier(&mut self) -> Result<(), Fault>
        ensures meaning { Barrier (plain self.old.bytes.now) result (plain self.new.bytes.now) }
        ensures bytes { self.new.bytes.now ≡ self.old.bytes.now }
        ensures lender { self.new.bytes.ghost_name ≡ self.old.bytes.ghost_name }
    {
        Ok(())
    }

    fn restart(&mut self)
        ensures meaning { Restarted (plain self.old.bytes.now) (plain self.new.bytes.now) }
        ensures bytes { self.new.bytes.now ≡ self.old.bytes.now }
        ensures lender { self.new.bytes.ghost_name ≡ self.old.bytes.ghost_name }
    {}
}
