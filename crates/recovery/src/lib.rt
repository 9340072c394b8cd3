// A card read back over any disk: what its journal makes, and what is found again after a power cut.
#![tactic(auto)]

mod loading;
mod recovering;

pub use loading::{LoadError, load};
pub use recovering::recover;
