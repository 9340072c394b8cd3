// The journal over any disk: a card made new, entries appended, and what every power cut leaves.
#![tactic(auto)]

mod appending;
mod formatting;
mod keeping;
mod place;
mod places;
mod putting;

pub use appending::{AppendError, append};
pub use formatting::{FormatError, format};
pub use keeping::{EntryError, append_and_apply, format_and_clear};
pub use place::{Place, Side, Slot};
