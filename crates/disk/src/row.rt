// A row of bytes, read and written by blocks of 256.
ghost use Rattle.disk.specs.Row.{CopiedIn, CopiedOut};
ghost use Rattle.std.specs.Prelude.{◌≡◌, length};

use super::Fault;

// Fills `into` with block `b` of the row, if the row has it whole.
pub fn read_block(row: &[u8], b: u64, into: &mut [u8; 256]) -> Result<(), Fault>
    ensures { CopiedOut row.now b into.old result into.new }
{
    let (blocks, _) = row.as_chunks::<256>();
    *into = *blocks.get(b as usize).ok_or(Fault::NoBlock)?;
    Ok(())
}

// Replaces block `b` of the row by `from`, if the row has it whole.
pub fn write_block(row: &mut [u8], b: u64, from: &[u8; 256]) -> Result<(), Fault>
    ensures { CopiedIn row.old b from.now result row.new }
{
    // `as_chunks_mut` and `get_mut` say nothing of what the row ends as, so the bound is tested here and the range written.
    if b >= row.len() as u64 / 256 {
        return Err(Fault::NoBlock);
    }
    let at = b as usize * 256;
    row[at..at + 256].copy_from_slice(from);
    Ok(())
}
