// What is asked of a catalogue: which paths a path needs, where a new content may lie, which generation is the newest, and
// which entries make it again.
#![tactic(auto)]

mod checkpoint;
mod closing;
mod freeing;
mod rollback;

pub use checkpoint::{listing_entry, listing_len};
pub use closing::{closure, references};
pub use freeing::free_run;
pub use rollback::{newest, newest_below};
