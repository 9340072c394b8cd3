// A block that is held back.
ghost use Rattle.std.specs.Prelude.{◌≡◌, length};

// The number of a block, and the content that is on its way to it.
#[derive(Clone, Copy)]
pub struct Pending {
    pub at: u64,
    pub content: [u8; 256],
    ghost whole: { length content ≡ 256 },
}
