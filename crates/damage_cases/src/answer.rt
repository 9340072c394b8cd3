// What load answers, in words.
use catalogue::Catalogue;
use disk::{Disk, Image};
use recovery::{LoadError, load};
use std::alloc::{AllocError, Global};
use std::fmt;

// What came of a load; a refusal is told by its number. A type of its own, and not the `Result` of the load, since a `Result` can have no `Display` of ours.
#[derive(Clone, Copy, PartialEq, Eq, Debug)]
pub(crate) enum Answer {
    Done { entries: u32, paths: usize },
    Refused(LoadError),
}

impl fmt::Display for Answer {
    fn fmt<W: fmt::Write>(&self, f: &mut fmt::Formatter<W>) -> fmt::Result {
        match *self {
            Answer::Done { entries, paths } => write!(f, "done, {entries} entries, {paths} paths"),
            Answer::Refused(LoadError::Dark) => write!(f, "1"),
            Answer::Refused(LoadError::WrongSize) => write!(f, "18"),
            Answer::Refused(LoadError::BadLabel) => write!(f, "19"),
            Answer::Refused(LoadError::BadEntry(block)) => write!(f, "20 at {block}"),
        }
    }
}

// Loads the disk into a catalogue.
pub(crate) fn loaded<D: Disk>(heap: Global, disk: &D) -> Result<Answer, AllocError> {
    let mut catalogue = Catalogue::new(heap, 0)?;
    Ok(match load(disk, &mut catalogue) {
        Ok(place) => Answer::Done {
            entries: place.used,
            paths: catalogue.paths().len(),
        },
        Err(error) => Answer::Refused(error),
    })
}

// Loads the card on these bytes.
pub(crate) fn loaded_bytes(heap: Global, bytes: &mut [u8]) -> Result<Answer, AllocError> {
    let disk = Image::new(bytes);
    loaded(heap, &disk)
}
