// A name: a lawful text of 1 to 24 bytes. The bytes after the text are zero, so that equal texts are equal names.
// In fixed memory, with its length beside it: a `String` would be no plain copy, and could fail for want of memory.
ghost use Rattle.std.specs.Prelude.{◌≡◌, ◌-◌, ◌≤◌, length, take, drop, replicate};
ghost use Rattle.naming.specs.Name.{Lawful};

#[derive(Clone, Copy, PartialEq, Eq, Debug)]
pub struct Name {
    pub(crate) len: usize,
    pub(crate) bytes: [u8; 24],
    ghost whole: { length bytes ≡ 24 },
    ghost fits: { len ≤ 24 },
    ghost lawful: { Lawful (take len bytes) },
    ghost rest: { drop len bytes ≡ replicate (24 - len) 0 },
}
