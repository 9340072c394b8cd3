// Trials of what a power cut leaves, over any disk.
#![tactic(auto)]

ghost use Rattle.trials.specs.Tried.{Tried, TriedOn};

use disk::{Disk, Fault};

// What came of a trial: whether the second barrier was done, and with which byte the block was found after the restart.
// A byte is found in both cases, so the two are told beside each other, and not as an `Option` or a `Result`.
#[derive(Clone, Copy, PartialEq, Eq, Debug)]
pub struct Outcome {
    pub settled: bool,
    pub found: u8,
}

// Settles block 0 full of `old`, writes it full of `new`, passes a barrier, and restarts the disk. A cut before that barrier is answered as the
// fault that it was.
pub fn trial<D: Disk>(disk: &mut D, old: u8, new: u8) -> Result<Outcome, Fault>
    ensures tried { Tried old new result }
    ensures disk { TriedOn (D.Disk.means disk.old) old new result (D.Disk.means disk.new) }
{
    disk.write(0, &[old; 256])?;
    disk.barrier()?;
    disk.write(0, &[new; 256])?;
    let settled = disk.barrier().is_ok();
    disk.restart();
    let mut block = [0; 256];
    disk.read(0, &mut block)?;
    Ok(Outcome {
        settled,
        found: block[0],
    })
}
