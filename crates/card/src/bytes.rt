// Bytes at a place of a block.
ghost use Rattle.std.specs.Prelude.{◌≡◌, ◌+◌, ◌≤◌, length};
ghost use Rattle.card.specs.Fields.{field, get};
ghost use Rattle.card.specs.Written.{Wrote};

// Writes the bytes from that place on.
pub(crate) fn put(block: &mut [u8; 256], at: usize, bytes: &[u8])
    requires { at + length bytes.now ≤ 256 }
    ensures { Wrote (field at (length bytes.now)) bytes.now block.old block.new }
{
    block[at..at + bytes.len()].copy_from_slice(bytes);
}

// The bytes from that place on.
pub(crate) fn bytes_at<const N: usize>(block: &[u8], at: usize) -> [u8; N]
    requires { at + N ≤ length block.now }
    ensures { result ≡ get (field at N) block.now }
{
    <[u8; N]>::try_from(&block[at..at + N]).unwrap()
}
