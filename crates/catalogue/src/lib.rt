// The catalogue: paths in registration order and three profiles, which entries fit it, and what they make of it.
#![tactic(auto)]

mod applying;
mod catalogues;
mod fitting;
mod generations;
mod making;
mod profile;
mod reading;
mod removing;

pub use applying::Unfit;
pub use catalogues::Catalogue;
pub use profile::Profile;
pub use records::{ByHash, ByNumber, Entry, Full, Generation, PathRecord, References, Run};
