// Power cuts to be tried, and what the runs with them end in, counted.
#![tactic(auto)]

ghost use Rattle.std.specs.Prelude.{◌≡◌, Some};
ghost use Rattle.tallies.specs.Counted.{counted, tally_text};

mod cuts;

pub use cuts::{BLOCKS, Cut, ENTRIES, KEPT, OPERATIONS, all_cuts};
use std::fmt;

// What a run ended in: its end, a cut in the format of the card, or a cut in the entry in this place. After that the restart found the catalogue before
// the entry, or the one after it, or neither.
#[derive(Clone, Copy, PartialEq, Eq, Debug)]
pub enum Ending {
    Uncut,
    InFormat,
    Before(u32),
    After(u32),
    Neither,
}

// How many runs ended in each way. A count that is the greatest number stays.
#[derive(Clone, Copy, PartialEq, Eq, Default, Debug)]
pub struct Tally {
    pub uncut: u32,
    pub in_format: u32,
    pub before: u32,
    pub after: u32,
    pub neither: u32,
}

impl Tally {
    // Counts one more run.
    pub fn count(&mut self, ending: Ending)
        ensures { self.new ≡ counted self.old ending }
    {
        match ending {
            Ending::Uncut => self.uncut = self.uncut.saturating_add(1),
            Ending::InFormat => self.in_format = self.in_format.saturating_add(1),
            Ending::Before(_) => self.before = self.before.saturating_add(1),
            Ending::After(_) => self.after = self.after.saturating_add(1),
            Ending::Neither => self.neither = self.neither.saturating_add(1),
        }
    }
}

// The runs that came past the format of the card.
impl fmt::Display for Tally {
    ghost output = { λ tally. Some (tally_text tally) };

    fn fmt<W: fmt::Write>(&self, f: &mut fmt::Formatter<W>) -> fmt::Result {
        let Tally {
            uncut,
            in_format: _,
            before,
            after,
            neither,
        } = self;
        write!(
            f,
            "{uncut} uncut, {before} found as before, {after} found as after, {neither} found otherwise"
        )
    }
}

#[cfg(test)]
mod tests;
