// Write-behind for a test, which fails where there is no memory.
use disk::Disk;
use std::alloc::{AllocError, Global};
use std::test::Fail;
use write_behind::WriteBehind;

// A layer over `below` that holds nothing.
pub(crate) fn layered<D: Disk + Drop>(heap: Global, below: D) -> Result<WriteBehind<D>, Fail> {
    Ok(WriteBehind::new(heap, below).map_err(AllocError::from)?)
}
