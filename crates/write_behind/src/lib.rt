// Write-behind: a layer over any disk that holds up to sixteen blocks back.
#![tactic(auto)]

ghost use Rattle.disk.specs.Meaning.{Barrier, Restarted, Write};
ghost use Rattle.std.specs.Prelude.{◌≡◌, ◌≤◌, [], length, MatchResult};
ghost use Rattle.write_behind.specs.Behind.{Holds, Orderly, behind};
ghost use Rattle.write_behind.specs.Order.{BehindBarrier, BehindWrite, Drain, Power, Send, passed_over};

mod held;
mod queue;

use disk::{Disk, Fault};
pub use held::Pending;
use queue::Queue;
use std::alloc::{AllocFailed, Global};

// The answer of a disk, but done where the disk has no such block.
fn pass_over(answer: Result<(), Fault>) -> Result<(), Fault>
    ensures { result ≡ passed_over answer }
{
    match answer {
        Err(Fault::NoBlock) => Ok(()),
        answer => answer,
    }
}

// Writes one held block below, and refuses where there is no power. A block that the disk has not is passed over: none such is ever held.
fn send<D: Disk>(below: &mut D, p: &Pending) -> Result<(), Fault>
    ensures { Send (D.Disk.means below.old) p.now result (D.Disk.means below.new) }
{
    pass_over(below.write(p.at, &p.content))
}

// Writes held blocks below, the first of them first, until there is no power.
#[tactic(auto, using(crate::proofs::Drains::drained_next, crate::proofs::Drains::drain_cut))]
fn drain<D: Disk>(below: &mut D, held: &[Pending]) -> Result<(), Fault>
    ensures { Drain D.Disk.means below.old held.now result below.new }
{
    for p in held {
        send(below, p)?;
    }
    Ok(())
}

// Refuses where the disk has no power: a dark one refuses any read as dark.
fn power<D: Disk>(below: &D) -> Result<(), Fault>
    ensures { Power (D.Disk.means below.now) result }
{
    pass_over(below.read(0, &mut [0; 256]))
}

// A block on its way.
fn pending(b: u64, from: &[u8; 256]) -> Pending
    ensures { Holds b from.now result }
{
    Pending {
        at: b,
        content: *from,
    }
}

// A disk over another, with blocks that are held back: they come to the disk below at a barrier, or one by one where
// there is no more room.
#[derive(Drop)]
pub struct WriteBehind<D: Disk> {
    below: D,
    held: Queue,
    ghost few: { length held ≤ 16 },
}

impl<D: Disk> WriteBehind<D> {
    // A layer over `below` that holds nothing. If there is no memory for sixteen blocks, gives the disk back.
    pub fn new(heap: Global, below: D) -> Result<WriteBehind<D>, AllocFailed<D>>
        ensures { MatchResult result (λ w. (w.below ≡ below) × (w.held ≡ [])) (λ e. e.value ≡ below) }
    {
        match Queue::new(heap) {
            Ok(held) => Ok(WriteBehind { below, held }),
            Err(_) => Err(AllocFailed { value: below }),
        }
    }

    // The disk below.
    pub fn below(&self) -> &D
        ensures { result.now ≡ self.now.below }
    {
        &self.below
    }

    // The blocks that are held, the longest-held first.
    pub fn held(&self) -> &[Pending]
        ensures { result.now ≡ self.now.held }
    {
        self.held.as_slice()
    }

    // Gives the disk below back, as it is; what is held is let go.
    pub fn into_inner(self) -> D
        ensures { result ≡ self.below }
    {
        let WriteBehind { below, held } = self;
        drop(held);
        below
    }
}

impl<D: Disk> Disk for WriteBehind<D> {
    ghost means = { λ s. behind (D.Disk.means s.below) s.held };

    fn size(&self) -> u64 {
        self.below.size()
    }

    fn read(&self, b: u64, into: &mut [u8; 256]) -> Result<(), Fault> {
        self.below.read(b, into)?;
        self.held.overlay(b, into);
        Ok(())
    }

    fn write(&mut self, b: u64, from: &[u8; 256]) -> Result<(), Fault>
        ensures meaning { Write (behind (D.Disk.means self.old.below) self.old.held) b from.now result (behind (D.Disk.means self.new.below) self.new.held) }
        ensures order { BehindWrite D.Disk.means self.old.below self.old.held b from.now result self.new.below self.new.held }
        ensures orderly { Orderly (D.Disk.means self.old.below).blocks self.old.held → Orderly (D.Disk.means self.new.below).blocks self.new.held }
    {
        self.below.read(b, &mut [0; 256])?;
        let newest = pending(b, from);
        if self.held.replace(newest) {
            return Ok(());
        }
        match self.held.overflow() {
            None => {
                self.held.hold(newest);
                Ok(())
            }
            Some(oldest) => {
                send(&mut self.below, &oldest)?;
                self.held.shift(newest);
                Ok(())
            }
        }
    }

    fn barrier(&mut self) -> Result<(), Fault>
        ensures meaning { Barrier (behind (D.Disk.means self.old.below) self.old.held) result (behind (D.Disk.means self.new.below) self.new.held) }
        ensures order { BehindBarrier D.Disk.means self.old.below self.old.held result self.new.below self.new.held }
        ensures orderly { Orderly (D.Disk.means self.old.below).blocks self.old.held → Orderly (D.Disk.means self.new.below).blocks self.new.held }
    {
        power(&self.below)?;
        drain(&mut self.below, self.held.as_slice())?;
        self.below.barrier()?;
        self.held.clear();
        Ok(())
    }

    fn restart(&mut self)
        ensures meaning { Restarted (behind (D.Disk.means self.old.below) self.old.held) (behind (D.Disk.means self.new.below) self.new.held) }
        ensures below { Restarted (D.Disk.means self.old.below) (D.Disk.means self.new.below) }
        ensures none { self.new.held ≡ [] }
    {
        self.held.clear();
        self.below.restart();
    }
}
