// The formats of the card's blocks: the label, and the entries of the journal; and how many blocks a card has.
#![tactic(auto)]

mod bytes;
mod decoding;
mod encoding;
mod kind;
mod label;
mod places;
mod size;
mod trailer;

pub use decoding::decode_entry;
pub use encoding::encode_entry;
pub use label::{Label, decode_label, encode_label};
pub use size::card_size;
pub use trailer::counts;
