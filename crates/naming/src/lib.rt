// Hashes with their hash parts, and names.
#![tactic(auto)]

mod base32;
mod bits;
mod compare;
mod exact;
mod hash;
mod name;
mod names;

pub use exact::Exact;
pub use hash::Hash;
pub use name::Name;
