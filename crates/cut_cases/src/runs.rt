// What a run is: its layer, its start and its entries. They are enums and no closures, since a run is plain data: it is copied with another start or other
// entries, and printed. Script and layer are chosen each by itself, and so stay two parameters.
use crate::scripts::Script;
use records::Entry;
use std::fmt;

// What lies between the journal and the bench card.
#[derive(Clone, Copy, PartialEq, Eq, Debug)]
pub(crate) enum Layer {
    Nothing,
    WriteBehind,
}

impl fmt::Display for Layer {
    fn fmt<W: fmt::Write>(&self, f: &mut fmt::Formatter<W>) -> fmt::Result {
        f.write_str(match self {
            Layer::Nothing => "on the bench card",
            Layer::WriteBehind => "under write-behind",
        })
    }
}

// How a run begins: with a card made new, or with the card as it is found.
#[derive(Clone, Copy, PartialEq, Eq, Debug)]
pub(crate) enum Start {
    Format,
    Load,
}

// Which entries a run appends: those of the script, or others in their places.
#[derive(Clone, Copy, PartialEq, Eq, Debug)]
pub(crate) enum Entries {
    Scripted,
    Other,
}

// A run: how it begins, and the entries that it appends, from one place of the script to before another. The entries before those are the script's.
#[derive(Clone, Copy, PartialEq, Eq, Debug)]
pub(crate) struct Run {
    pub(crate) script: Script,
    pub(crate) layer: Layer,
    pub(crate) start: Start,
    pub(crate) entries: Entries,
    pub(crate) from: u32,
    pub(crate) to: u32,
}

impl Run {
    // The entry in this place.
    pub(crate) fn entry_at(&self, place: u32) -> Entry {
        match self.entries {
            Entries::Scripted => self.script.entry_at(place),
            Entries::Other => self.script.other_at(place),
        }
    }
}
