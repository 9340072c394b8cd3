// Blocks written and settled.
ghost use Rattle.journal.specs.Steps.{Clear, Put};

use disk::{Disk, Fault};

// Writes a block and settles it.
pub(crate) fn put<D: Disk>(disk: &mut D, b: u64, content: &[u8; 256]) -> Result<(), Fault>
    ensures { Put (D.Disk.means disk.old) b content.now result (D.Disk.means disk.new) }
{
    disk.write(b, content)?;
    disk.barrier()
}

// Writes zeros to both halves of the journal and settles them.
pub(crate) fn clear_halves<D: Disk>(disk: &mut D) -> Result<(), Fault>
    ensures { Clear (D.Disk.means disk.old) result (D.Disk.means disk.new) }
{
    for b in 1..129 {
        disk.write(b, &[0; 256])?;
    }
    disk.barrier()
}
