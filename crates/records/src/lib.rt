// What a catalogue is made of: paths with their references and runs, generations and entries; how they are looked up; and
// whether a path or a generation may follow others.
#![tactic(auto)]

mod committing;
mod exact;
mod full;
mod listed;
mod lookups;
mod orders;
mod placing;
mod records;
mod references;
mod registering;
mod runs;

pub use committing::{MOST_GENERATIONS, is_committable};
pub use full::Full;
pub use lookups::{is_named, is_registered, is_unneeded, place_of, row_of};
pub use orders::{ByHash, ByNumber};
pub use placing::DATA;
pub use records::{Entry, Generation, PathRecord};
pub use references::References;
pub use registering::{MOST_PATHS, is_registrable};
pub use runs::Run;
