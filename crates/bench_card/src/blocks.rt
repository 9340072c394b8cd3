// The two halves of a bench card's bytes: n present blocks, then n settled ones.
ghost use Rattle.std.specs.Prelude.{◌≡◌, ◌+◌, ◌*◌, ◌<◌, ◌≤◌, length};
ghost use Rattle.bench_card.specs.Card.{Laid, Reverted, keeps};
ghost use Rattle.disk.specs.Row.{block_of, blocks_in, with_block};

// Whether a restart with the number `kept` keeps the present content of block `b`.
pub(crate) fn is_kept(kept: u32, b: u64) -> bool
    ensures { result ≡ keeps kept b }
{
    (kept >> (b % 32)) % 2 == 1
}

// Copies one block of the row over another.
fn copy_block(row: &mut [u8], from: u64, to: u64)
    requires { (from < blocks_in row.old) × (to < blocks_in row.old) }
    ensures { row.new ≡ with_block row.old to (block_of row.old from) }
{
    let at = from as usize * 256;
    row.copy_within(at..at + 256, to as usize * 256);
}

// Copies each of the `n` present blocks to its settled place.
pub(crate) fn settle(row: &mut [u8], n: u64)
    requires { (n + n) * 256 ≤ length row.old }
    ensures { Laid n (block_of row.old) row.old row.new }
{
    let half = n as usize * 256;
    row.copy_within(..half, half);
}

// Takes each of the `n` present blocks from its settled place, unless `kept` keeps it.
pub(crate) fn revert(row: &mut [u8], n: u64, kept: u32)
    requires { (n + n) * 256 ≤ length row.old }
    ensures { Reverted n kept n row.old row.new }
{
    // By the number, which says what is kept. After `chunks_exact_mut` a proof would know no byte of the row.
    for b in 0..n {
        if !is_kept(kept, b) {
            copy_block(row, n + b, b);
        }
    }
}
