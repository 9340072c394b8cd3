// A catalogue with the place of its journal on a card, and what is told of it.
use anyhow::Context;
use catalogue::Catalogue;
use disk::Disk;
use journal::{EntryError, Place, append_and_apply, format_and_clear};
use programs::{BLOCKS, PROFILE};
use records::Entry;
use recovery::recover;
use std::alloc::Global;
use std::fmt;

#[derive(Drop)]
pub(crate) struct Journalled {
    pub(crate) catalogue: Catalogue,
    pub(crate) place: Place,
}

// How many paths there are, how many generations the first profile has, which of them is current (0 where there is none), and the number of the journal's
// next entry.
#[derive(Clone, Copy, PartialEq, Eq, Debug)]
pub(crate) struct Summary {
    paths: usize,
    generations: usize,
    current: u32,
    pub(crate) next: u64,
}

impl Journalled {
    // Makes the disk's card new.
    pub(crate) fn formatted<D: Disk>(heap: Global, disk: &mut D) -> anyhow::Result<Journalled> {
        let mut catalogue = Catalogue::new(heap, BLOCKS)?;
        let place = format_and_clear(disk, &mut catalogue).context("the card is not formatted")?;
        Ok(Journalled { catalogue, place })
    }

    // Restarts the disk and loads its card.
    pub(crate) fn recovered<D: Disk>(heap: Global, disk: &mut D) -> anyhow::Result<Journalled> {
        let mut catalogue = Catalogue::new(heap, BLOCKS)?;
        let place = recover(disk, &mut catalogue).context("the card is damaged")?;
        Ok(Journalled { catalogue, place })
    }

    // Appends the entry to the journal and applies it to the catalogue.
    pub(crate) fn record<D: Disk>(
        &mut self,
        disk: &mut D,
        entry: &Entry,
    ) -> Result<(), EntryError> {
        append_and_apply(disk, &mut self.catalogue, &mut self.place, entry)
    }

    pub(crate) fn summary(&self) -> Summary {
        let (generations, current) = self.catalogue.profile(PROFILE).map_or((0, 0), |profile| {
            (profile.generations().len(), profile.current())
        });
        Summary {
            paths: self.catalogue.paths().len(),
            generations,
            current,
            next: self.place.next_number(),
        }
    }
}

impl fmt::Display for Summary {
    fn fmt<W: fmt::Write>(&self, f: &mut fmt::Formatter<W>) -> fmt::Result {
        let paths = self.paths;
        let generations = self.generations;
        let current = self.current;
        let next = self.next;
        write!(
            f,
            "{paths} paths, generation {current} of {generations}, next entry {next}"
        )
    }
}
