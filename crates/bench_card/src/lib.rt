// The bench card: a disk on lent bytes whose power goes at an operation known beforehand.
#![tactic(auto)]

ghost use Rattle.std.specs.Prelude.{◌≡◌};
ghost use Rattle.bench_card.specs.Card.{Admitted, CardBarrier, CardRestart, CardWrite, card_means, fresh, present_part, settled_part};
ghost use Rattle.disk.specs.Meaning.{Barrier, Restarted, Write};

mod blocks;
mod supply;

use disk::{Disk, Fault, MOST_BLOCKS, read_block, write_block};
use supply::Supply;

// A disk whose bytes are n present blocks, then n settled ones: what a done barrier has made safe.
#[derive(Drop)]
pub struct BenchCard<'a> {
    bytes: &'a mut [u8],
    supply: Supply,
    kept: u32,
}

impl<'a> BenchCard<'a> {
    // A lit card on these bytes. Its power goes in the operation numbered `cut` (counted from 1, so that 0 is none), and a
    // restart keeps what was written to the blocks whose bit in `kept` is one.
    pub fn new(bytes: &'a mut [u8], cut: u64, kept: u32) -> BenchCard<'a>
        ensures bytes { result.bytes.now ≡ bytes.old }
        ensures lender { result.bytes.ghost_name ≡ bytes.entry.ghost_name }
        ensures supply { result.supply ≡ fresh cut }
        ensures kept { result.kept ≡ kept }
    {
        BenchCard {
            bytes,
            supply: Supply {
                lit: true,
                cut,
                done: 0,
            },
            kept,
        }
    }

    // Gives the number by which the next restarts go.
    pub fn keep(&mut self, kept: u32)
        ensures kept { self.new.kept ≡ kept }
        ensures bytes { self.new.bytes.now ≡ self.old.bytes.now }
        ensures lender { self.new.bytes.ghost_name ≡ self.old.bytes.ghost_name }
        ensures supply { self.new.supply ≡ self.old.supply }
    {
        self.kept = kept;
    }

    // Whether there is power.
    pub fn is_lit(&self) -> bool
        ensures { result ≡ self.now.supply.lit }
    {
        self.supply.lit
    }

    // How many writes and barriers were not refused since the card was made.
    pub fn operations(&self) -> u64
        ensures { result ≡ self.now.supply.done }
    {
        self.supply.done
    }

    // Refuses everything where there is no power, and else a block that the card has not.
    fn admit(&self, b: u64) -> Result<(), Fault>
        ensures { Admitted (card_means self.now.bytes.now self.now.supply) b result }
    {
        self.supply.power()?;
        if b < self.size() {
            Ok(())
        } else {
            Err(Fault::NoBlock)
        }
    }

    // The present blocks, one after the other.
    pub fn present(&self) -> &[u8]
        ensures { result.now ≡ present_part self.now.bytes.now }
    {
        let half = self.size() as usize * 256;
        &self.bytes[..half]
    }

    // The settled blocks, one after the other.
    pub fn settled(&self) -> &[u8]
        ensures { result.now ≡ settled_part self.now.bytes.now }
    {
        let half = self.size() as usize * 256;
        &self.bytes[half..half + half]
    }

    // Gives the bytes back.
    pub fn into_bytes(self) -> &'a mut [u8]
        ensures bytes { result.now ≡ self.entry.bytes.now }
        ensures lender { result.ghost_name ≡ self.entry.bytes.ghost_name }
    {
        let BenchCard {
            bytes,
            supply: _,
            kept: _,
        } = self;
        bytes
    }
}

impl<'a> Disk for BenchCard<'a> {
    ghost means = { λ s. card_means s.bytes.now s.supply };

    fn size(&self) -> u64 {
        (self.bytes.len() as u64 / 512).min(MOST_BLOCKS)
    }

    fn read(&self, b: u64, into: &mut [u8; 256]) -> Result<(), Fault> {
        self.admit(b)?;
        read_block(self.bytes, b, into)
    }

    fn write(&mut self, b: u64, from: &[u8; 256]) -> Result<(), Fault>
        ensures meaning { Write (card_means self.old.bytes.now self.old.supply) b from.now result (card_means self.new.bytes.now self.new.supply) }
        ensures card { CardWrite self.old.bytes.now self.old.supply b from.now result self.new.bytes.now self.new.supply }
        ensures kept { self.new.kept ≡ self.old.kept }
        ensures lender { self.new.bytes.ghost_name ≡ self.old.bytes.ghost_name }
    {
        self.admit(b)?;
        write_block(self.bytes, b, from)?;
        self.supply.spend()
    }

    fn barrier(&mut self) -> Result<(), Fault>
        ensures meaning { Barrier (card_means self.old.bytes.now self.old.supply) result (card_means self.new.bytes.now self.new.supply) }
        ensures card { CardBarrier self.old.bytes.now self.old.supply result self.new.bytes.now self.new.supply }
        ensures kept { self.new.kept ≡ self.old.kept }
        ensures lender { self.new.bytes.ghost_name ≡ self.old.bytes.ghost_name }
    {
        self.supply.power()?;
        self.supply.spend()?;
        let n = self.size();
        blocks::settle(self.bytes, n);
        Ok(())
    }

    fn restart(&mut self)
        ensures meaning { Restarted (card_means self.old.bytes.now self.old.supply) (card_means self.new.bytes.now self.new.supply) }
        ensures card { CardRestart self.old.bytes.now self.old.supply self.old.kept self.new.bytes.now self.new.supply }
        ensures kept { self.new.kept ≡ self.old.kept }
        ensures lender { self.new.bytes.ghost_name ≡ self.old.bytes.ghost_name }
    {
        let n = self.size();
        blocks::revert(self.bytes, n, self.kept);
        blocks::settle(self.bytes, n);
        self.supply.light();
    }
}
