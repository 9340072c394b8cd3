// A run of entries on a card, to its end or to the cut, and what is found then.
use crate::runs::{Entries, Layer, Run, Start};
use anyhow::anyhow;
use bench_card::BenchCard;
use catalogue::Catalogue;
use disk::Disk;
use journal::{EntryError, Place, append_and_apply, format_and_clear};
use records::Entry;
use recovery::{load, recover};
use std::alloc::{AllocError, Global};
use tallies::{BLOCKS, Cut, Ending};
use write_behind::WriteBehind;

// The bytes of a card on which nothing was written.
pub(crate) fn blank_card(heap: Global) -> Result<Vec<u8>, AllocError> {
    Ok(vec![in heap; 0; BLOCKS * 512]?)
}

// A run that is tried with one cut after the other: the bytes of the card on which it begins, and the catalogue that this card has to hold if the run loads it.
#[derive(Drop)]
pub(crate) struct Attempt {
    heap: Global,
    run: Run,
    card: Vec<u8>,
    made: Catalogue,
}

impl Attempt {
    // The run on this card.
    pub(crate) fn new(heap: Global, run: Run, card: Vec<u8>) -> Result<Attempt, AllocError> {
        let made = run.script.made(heap, run.from)?;
        Ok(Attempt {
            heap,
            run,
            card,
            made,
        })
    }

    // From what was found on this card: the rest of the run from this place on, and one entry more.
    pub(crate) fn rest(
        &self,
        entries: Entries,
        from: u32,
        card: Vec<u8>,
    ) -> Result<Attempt, AllocError> {
        let run = Run {
            entries,
            from,
            to: self.run.to.saturating_add(1),
            ..self.run
        };
        Attempt::new(self.heap, run, card)
    }

    // What the run on a copy of the card ends in with this cut, and the bytes of the copy then.
    pub(crate) fn cut_at(&self, cut: Cut) -> anyhow::Result<(Ending, Vec<u8>)> {
        let mut bytes = self.card.to_vec(self.heap)?;
        let ending = self.ending_on(bytes.as_mut_slice(), cut)?;
        Ok((ending, bytes))
    }

    // What the run ends in on a bench card over these bytes, or on a layer over it.
    fn ending_on(&self, bytes: &mut [u8], cut: Cut) -> anyhow::Result<Ending> {
        let mut card = BenchCard::new(bytes, cut.at, cut.kept);
        match self.run.layer {
            Layer::Nothing => Ok(self.ending_of(&mut card)?),
            Layer::WriteBehind => {
                // By a pattern: of `ok` and `map_err`, which take the disk with what is lent to it, the checker makes no proof.
                let Ok(mut layer) = WriteBehind::new(self.heap, card) else {
                    return Err(anyhow!("no memory"));
                };
                Ok(self.ending_of(&mut layer)?)
            }
        }
    }

    // What the run ends in on this disk. A failure of the disk is the cut, and any other error an end of its own: so the errors are told apart, and not
    // passed on.
    fn ending_of<D: Disk>(&self, disk: &mut D) -> Result<Ending, AllocError> {
        let mut catalogue = Catalogue::new(self.heap, BLOCKS as u32)?;
        let mut at = match self.begin(disk, &mut catalogue) {
            Ok(at) => at,
            Err(ending) => return Ok(ending),
        };
        for place in self.run.from..self.run.to {
            let entry = self.run.entry_at(place);
            match append_and_apply(disk, &mut catalogue, &mut at, &entry) {
                Ok(()) => {}
                Err(EntryError::Failed(_)) => {
                    return self.found_after(disk, &mut catalogue, place, &entry);
                }
                Err(_) => return Ok(Ending::Neither),
            }
        }
        Ok(Ending::Uncut)
    }

    // Makes card and catalogue new, or loads a card that has to hold the catalogue made before; answers what the run ends in where it cannot begin,
    // which is no error to pass on.
    fn begin<D: Disk>(&self, disk: &mut D, catalogue: &mut Catalogue) -> Result<Place, Ending> {
        match self.run.start {
            Start::Format => format_and_clear(disk, catalogue).map_err(|_| Ending::InFormat),
            Start::Load => match load(disk, catalogue) {
                Ok(place) if *catalogue == self.made => Ok(place),
                _ => Err(Ending::Neither),
            },
        }
    }

    // What a restart finds after the cut in the entry in this place, which was to be appended to the catalogue. `journal_cases` compares likewise: shared, the
    // comparison would make `tallies`, which counts for any run, stand on the catalogue for a few lines.
    fn found_after<D: Disk>(
        &self,
        disk: &mut D,
        catalogue: &mut Catalogue,
        place: u32,
        entry: &Entry,
    ) -> Result<Ending, AllocError> {
        let mut found = Catalogue::new(self.heap, BLOCKS as u32)?;
        if recover(disk, &mut found).is_err() {
            return Ok(Ending::Neither);
        }
        if found == *catalogue {
            return Ok(Ending::Before(place));
        }
        let _ = catalogue.apply(entry);
        if found == *catalogue {
            return Ok(Ending::After(place));
        }
        Ok(Ending::Neither)
    }
}
