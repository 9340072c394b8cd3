// A field of bits in a row of digits, each of a few bits, the lowest digit first.
ghost use Rattle.std.specs.Prelude.{◌≡◌, ◌+◌, ◌*◌, ◌/◌, ◌%◌, ◌^◌, ◌<◌, ◌≤◌, slice_index};
ghost use Rattle.naming.specs.Digits.{EachBelow, value};

// The digit at `at`, and 0 past the last.
fn digit(digits: &[u8], at: usize) -> u32
    ensures { result ≡ slice_index digits.now at }
{
    digits.get(at).map_or(0, |digit| u32::from(*digit))
}

// The `width` bits from bit `from` on, of digits of `wide` bits each: three neighbouring digits hold them.
pub(crate) fn window(digits: &[u8], wide: u32, from: u32, width: u32) -> u8
    requires digit { (0 < wide) × (wide ≤ 8) }
    requires field { (width ≤ 8) × (width ≤ 2 * wide + 1) }
    requires below { EachBelow (2 ^ wide) digits.now }
    ensures { result ≡ value (2 ^ wide) digits.now / 2 ^ from % 2 ^ width }
{
    let at = (from / wide) as usize;
    let low = digit(digits, at);
    let middle = digit(digits, at + 1) << wide;
    let high = digit(digits, at + 2) << (2 * wide);
    let field = ((low + middle + high) >> (from % wide)) & ((1 << width) - 1);
    field as u8
}
