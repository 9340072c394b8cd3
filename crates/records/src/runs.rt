// Runs of blocks: where a content lies.
ghost use Rattle.std.specs.Prelude.{◌≡◌, ◌+◌};

// A row of blocks: the first, and how many.
#[derive(Clone, Copy, PartialEq, Eq, Debug)]
pub struct Run {
    pub first: u32,
    pub count: u32,
}

impl Run {
    // The block after the last one.
    pub fn end(&self) -> u64
        ensures { result ≡ self.now.first + self.now.count }
    {
        u64::from(self.first) + u64::from(self.count)
    }
}
