// The power cuts to be tried.
ghost use Rattle.std.specs.Prelude.{◌≡◌, IfOk};
ghost use Rattle.tallies.specs.Cuts.{every_cut};

use std::alloc::{AllocError, Global};

// The operation at which the power fails, from 1 on (0: at none, as the card counts), and the number by which the restart picks what the card kept.
#[derive(Clone, Copy, PartialEq, Eq, Debug)]
pub struct Cut {
    pub at: u64,
    pub kept: u32,
}

// The run that is tried with every cut: the blocks of its card, its entries, and more operations than it has.
pub const BLOCKS: usize = 130;

pub const ENTRIES: u32 = 190;

pub const OPERATIONS: u64 = 620;

// The numbers by which a restart picks what the card kept of its last writes.
pub const KEPT: [u32; 4] = [0, 0xffff_ffff, 0xaaaa_aaaa, 0x0f0f_3c3c];

// The cuts at each operation before this one, with every number.
pub fn all_cuts(heap: Global, end: u64, numbers: &[u32]) -> Result<Vec<Cut>, AllocError>
    ensures { IfOk result (λ cuts. cuts.items ≡ every_cut end numbers.now) }
{
    (1..end)
        .flat_map(|at| numbers.iter().map(move |kept| Cut { at, kept: *kept }))
        .collect(heap)
}
