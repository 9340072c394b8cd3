// Why references are refused.

// They would be more than eight.
#[derive(Clone, Copy, PartialEq, Eq, Debug)]
pub struct Full;
